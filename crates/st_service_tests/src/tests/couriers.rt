//! Couriers hand numbers on, most without a journal, and are served in slices.
use super::errand::Errand;
use super::errand::Errand::{Hires, Plays, ShutsDown};
use super::left::{ANYTHING, Left};
use super::office::carries;
use super::parcel::Parcel::{AreInOrder, Awaits, Casts, HaveCome};
use st_service::{Journals, Undelivered};

/// Nothing waits or is on its way, each courier is stopped, and no message is lost.
const NOTHING_IS_LOST: Left = Left {
    unhandled: (0, 0),
    unstopped: (0, 0),
    undelivered: Some(Undelivered {
        stopped: 0,
        exhausted: 0,
        missing: 0,
    }),
    ..ANYTHING
};

/// A number goes round a ring of ten until it is 0.
static GOES_ROUND: [Errand; 5] = [
    Hires(9, Some(1)),
    Hires(1, Some(0)),
    Plays(&[Casts((10_000, 10_000), (0, 1)), Awaits(10_001, 10)]),
    ShutsDown(NOTHING_IS_LOST),
    Plays(&[HaveCome(10_001, 10)]),
];

#[test]
fn a_number_goes_round_by_one_worker(rt: HostRuntime) {
    carries(rt, 1, Journals::None, 0, &GOES_ROUND);
}

#[test]
fn a_number_goes_round_by_two_workers(rt: HostRuntime) {
    carries(rt, 2, Journals::None, 0, &GOES_ROUND);
}

#[test]
fn a_number_goes_round_by_sixteen_workers(rt: HostRuntime) {
    carries(rt, 16, Journals::None, 0, &GOES_ROUND);
}

/// A hundred couriers are hired who send to nobody, and a hundred that send to one of those each. To each of these the numbers
/// from 1 to 20 are cast. What each of those sends on goes to nobody, at the latest while the service is shut down.
static SEND_IN_ORDER: [Errand; 4] = [
    Hires(100, None),
    Hires(100, Some(0)),
    Plays(&[
        Casts((1, 20), (100, 200)),
        Awaits(2_000, 100),
        AreInOrder(20, 100),
    ]),
    ShutsDown(Left {
        undelivered: Some(Undelivered {
            stopped: 0,
            exhausted: 0,
            missing: 2_000,
        }),
        ..NOTHING_IS_LOST
    }),
];

#[test]
fn messages_of_a_hundred_senders_come_in_order(rt: HostRuntime) {
    carries(rt, 4, Journals::None, 10_000, &SEND_IN_ORDER);
}

#[test]
fn messages_come_in_order_where_journals_are_cut(rt: HostRuntime) {
    carries(rt, 4, Journals::AtMost(10), 10_000, &SEND_IN_ORDER);
}

/// A service is shut down while sixteen numbers go round.
#[test]
fn no_message_is_lost_where_a_service_is_shut_down(rt: HostRuntime) {
    static ERRANDS: [Errand; 4] = [
        Hires(15, Some(1)),
        Hires(1, Some(0)),
        Plays(&[
            Casts((1_000_000_000, 1_000_000_000), (0, 16)),
            Awaits(5_000, 16),
        ]),
        ShutsDown(Left {
            unhandled: (16, 16),
            ..NOTHING_IS_LOST
        }),
    ];
    carries(rt, 4, Journals::None, 0, &ERRANDS);
}
