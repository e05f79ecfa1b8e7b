//! Clerks are shut down while they work.
use super::act::Act;
use super::act::Act::{Hires, HiresEach, Plays, ShutsDown};
use super::hiring::Hiring;
use super::house::serves;
use super::ids::{FIRST, NOBODY};
use super::left::{ANYTHING, Left};
use super::opening::{OPTIONS, Opening, PLAIN};
use super::part::Part::{At, Each};
use super::row::Row::{HasEnded, Says, Tells};
use super::said::Said;
use super::way::Way;
use crate::Order;
use st_service::Options;

/// A thousand clerks who have something to do are shut down: each has ended, and his house takes no orders. A service that was
/// shut down starts nobody, and has nobody to stop.
#[test]
fn a_thousand_are_shut_down_while_they_work(rt: HostRuntime) {
    static ACTS: [Act; 5] = [
        HiresEach(1_000, &[Tells(Order::Spin)]),
        ShutsDown(
            7,
            Left {
                stopped: (1_000, 1_000),
                events: (1_000, 1_000),
                unstopped: (0, 0),
                ..ANYTHING
            },
            None,
        ),
        Plays(Each(&[
            HasEnded(7, 0),
            Says(Way::Cast, Order::Spin, Said::Closed(Order::Spin)),
        ])),
        Hires(None, NOBODY, Hiring::Closed),
        ShutsDown(
            8,
            Left {
                stopped: (0, 0),
                ..ANYTHING
            },
            None,
        ),
    ];
    serves(rt, &PLAIN, &ACTS);
}

/// A clerk who bounces to himself is shut down, and no turn is made any more: what he bounces waits, or is on its way to
/// himself.
#[test]
fn a_message_that_is_left_is_handed_out(rt: HostRuntime) {
    static NO_TURN: Opening = Opening {
        options: Options {
            turns: 0,
            ..OPTIONS
        },
        reports: None,
    };
    static ACTS: [Act; 3] = [
        Hires(None, FIRST, Hiring::Runs(FIRST)),
        Plays(At(0, &[Tells(Order::Bounce)])),
        ShutsDown(
            7,
            Left {
                unhandled: (1, 1),
                ..ANYTHING
            },
            Some((FIRST, Order::Bounce)),
        ),
    ];
    serves(rt, &NO_TURN, &ACTS);
}
