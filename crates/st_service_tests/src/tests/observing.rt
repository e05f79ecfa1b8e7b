//! An observer is told each report once.
use super::act::Act;
use super::act::Act::{HiresEach, Plays, ShutsDown};
use super::house::serves;
use super::left::{ANYTHING, Left};
use super::opening::{OPTIONS, Opening};
use super::part::Part::Each;
use super::reports::Reports;
use super::row::Row::Tells;
use crate::Order;
use st_service::{Journals, Options};

/// A hundred clerks are told ten orders each, and an observer counts. He is told, so journals are kept for him.
#[test]
fn each_report_is_told_once(rt: HostRuntime) {
    // The entries are posts, turns, and a stop of each.
    static OBSERVED: Opening = Opening {
        options: Options {
            journals: Journals::None,
            ..OPTIONS
        },
        reports: Some(Reports::Are(1_000, 5_500, 2_100)),
    };
    // They are served in fewer slices.
    static ACTS: [Act; 12] = [
        HiresEach(100, &[]),
        Plays(Each(&[Tells(Order::Add(0))])),
        Plays(Each(&[Tells(Order::Add(1))])),
        Plays(Each(&[Tells(Order::Add(2))])),
        Plays(Each(&[Tells(Order::Add(3))])),
        Plays(Each(&[Tells(Order::Add(4))])),
        Plays(Each(&[Tells(Order::Add(5))])),
        Plays(Each(&[Tells(Order::Add(6))])),
        Plays(Each(&[Tells(Order::Add(7))])),
        Plays(Each(&[Tells(Order::Add(8))])),
        Plays(Each(&[Tells(Order::Add(9))])),
        ShutsDown(
            3,
            Left {
                turns: (100, 1_000),
                ..ANYTHING
            },
            None,
        ),
    ];
    serves(rt, &OBSERVED, &ACTS);
}
