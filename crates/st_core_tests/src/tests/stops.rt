//! Machines that end.
use super::begin::Begin;
use super::row::More::{Ends, PutsOff};
use super::row::Row::{Tells, Turns};
use super::row::{More, Row};
use super::seen::Seen;
use super::shown::Shown::{NotPosted, NotStopped, NotTurned, Posted, Stopped};
use super::table::Table;
use super::table_machine::{AT_REST, BEGIN, PLAIN, answers_are};
use super::told::Told::{Cast, Stop, Turn};
use st_core::{Kind, Refusal};

/// One event is postponed, and two wait. From the stop on all is refused, also at a moment out of range.
#[test]
fn a_stop_from_outside_acts_at_once(rt: HostRuntime) {
    static ROWS: [Row; 9] = [
        Tells(Cast(10), Posted(1)),
        Tells(Cast(0), Posted(2)),
        Tells(Cast(0), Posted(3)),
        Turns(5, 1, Kind::Cast, 0, 0, &[PutsOff]),
        Tells(Stop(9), Stopped(7)),
        Tells(Cast(6), NotPosted(Refusal::Stopped(9), 6)),
        Tells(Turn(8), NotTurned(Refusal::Stopped(9))),
        Tells(
            Turn(9_223_372_036_854_775_808),
            NotTurned(Refusal::Stopped(9)),
        ),
        Tells(Stop(4), NotStopped(Refusal::Stopped(9))),
    ];
    static END: Seen = Seen {
        latest: 5,
        ended: Some((9, 7)),
        ..AT_REST
    };
    answers_are(rt, &PLAIN, &ROWS, &END);
}

#[test]
fn a_machine_has_ended_also_where_no_number_is_left(rt: HostRuntime) {
    static START: Begin<Table> = Begin {
        first: Some(9_223_372_036_854_775_807),
        ..BEGIN
    };
    static ROWS: [Row; 3] = [
        Tells(Cast(0), Posted(9_223_372_036_854_775_807)),
        Tells(Stop(9), Stopped(7)),
        Tells(Cast(6), NotPosted(Refusal::Stopped(9), 6)),
    ];
    static END: Seen = Seen {
        ended: Some((9, 7)),
        ..AT_REST
    };
    answers_are(rt, &START, &ROWS, &END);
}

/// The first event is postponed, the second stops the machine, and the third waits.
const FIRST: Row = Tells(Cast(10), Posted(1));

const THIRD: Row = Tells(Cast(0), Posted(3));

const PUT_OFF: Row = Turns(5, 1, Kind::Cast, 0, 0, &[PutsOff]);

/// Behind the end a turn and a stop are refused.
const TURN: Row = Tells(Turn(8), NotTurned(Refusal::Stopped(9)));

const STOP: Row = Tells(Stop(4), NotStopped(Refusal::Stopped(9)));

/// What is seen in the end, where the machine's data are as they were. The word is that of the data after the second
/// event, with which its turn ends.
const ENDED: Seen = Seen {
    latest: 6,
    ended: Some((9, 7)),
    ..AT_REST
};

/// The same, where the data are 8.
static ENDED_WITH_8: Seen = Seen {
    held: 8,
    ended: Some((9, 8)),
    ..ENDED
};

#[test]
fn a_callback_stops_with_the_old_data(rt: HostRuntime) {
    static ROWS: [Row; 7] = [
        FIRST,
        Tells(Cast(15), Posted(2)),
        THIRD,
        PUT_OFF,
        Turns(6, 2, Kind::Cast, 0, 0, &[Ends(9, 7)]),
        TURN,
        STOP,
    ];
    static END: Seen = ENDED;
    answers_are(rt, &PLAIN, &ROWS, &END);
}

#[test]
fn a_callback_stops_with_new_data(rt: HostRuntime) {
    static ROWS: [Row; 7] = [
        FIRST,
        Tells(Cast(16), Posted(2)),
        THIRD,
        PUT_OFF,
        Turns(6, 2, Kind::Cast, 0, 0, &[Ends(9, 8)]),
        TURN,
        STOP,
    ];
    answers_are(rt, &PLAIN, &ROWS, &ENDED_WITH_8);
}

#[test]
fn a_callback_stops_with_a_reply(rt: HostRuntime) {
    static ROWS: [Row; 7] = [
        FIRST,
        Tells(Cast(17), Posted(2)),
        THIRD,
        PUT_OFF,
        Turns(6, 2, Kind::Cast, 0, 0, &[Ends(9, 8)]),
        TURN,
        STOP,
    ];
    answers_are(rt, &PLAIN, &ROWS, &ENDED_WITH_8);
}
