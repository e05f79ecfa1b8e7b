//! Events that are postponed and inserted.
use super::begin::Begin;
use super::host::Host;
use super::machine::Machine;
use super::row::More::{Inserts, PutsOff};
use super::row::Row;
use super::row::Row::{Tells, Turns};
use super::seen::{Seen, sees};
use super::shown::Shown::{Idle, NotPosted, NotTurned, Posted};
use super::shown::shows;
use super::table::Table;
use super::table_machine::{AT_REST, BEGIN, PLAIN, RESTING, answers_are};
use super::tested::play;
use super::told::Told::{Cast, Turn};
use st_core::{Core, Kind, Refusal};
use std::alloc::Global;
use std::process::Abort;

/// Two casts are postponed, and the third changes the state.
#[test]
fn postponed_casts_keep_their_places(rt: HostRuntime) {
    static ROWS: [Row; 11] = [
        Tells(Cast(10), Posted(1)),
        Tells(Cast(10), Posted(2)),
        Tells(Cast(3), Posted(3)),
        Tells(Cast(0), Posted(4)),
        Turns(0, 1, Kind::Cast, 0, 0, &[PutsOff]),
        Turns(0, 2, Kind::Cast, 0, 0, &[PutsOff]),
        Turns(0, 3, Kind::Cast, 0, 1, &[]),
        Turns(0, 1, Kind::Cast, 1, 1, &[]),
        Turns(0, 2, Kind::Cast, 1, 1, &[]),
        Turns(0, 4, Kind::Cast, 1, 1, &[]),
        Tells(Turn(0), Idle),
    ];
    static END: Seen = Seen {
        state: 1,
        ..AT_REST
    };
    answers_are(rt, &PLAIN, &ROWS, &END);
}

/// One cast is postponed; another changes the state, is postponed itself and inserts two events.
#[test]
fn inserted_events_come_before_retried_ones(rt: HostRuntime) {
    static ROWS: [Row; 9] = [
        Tells(Cast(10), Posted(1)),
        Tells(Cast(11), Posted(2)),
        Turns(0, 1, Kind::Cast, 0, 0, &[PutsOff]),
        Turns(0, 2, Kind::Cast, 0, 1, &[PutsOff, Inserts(3), Inserts(4)]),
        Turns(0, 3, Kind::Internal, 1, 1, &[]),
        Turns(0, 4, Kind::Cast, 1, 1, &[]),
        Turns(0, 1, Kind::Cast, 1, 1, &[]),
        Turns(0, 2, Kind::Cast, 1, 1, &[]),
        Tells(Turn(0), Idle),
    ];
    static END: Seen = Seen {
        state: 1,
        ..AT_REST
    };
    answers_are(rt, &PLAIN, &ROWS, &END);
}

/// Makes a turn of a machine that is seen so. Where it is refused, the machine is seen so still, and tried again the
/// turn reports what it is to.
fn turns_or_stays<T: Machine>(rt: &Host<impl Abort>, machine: &mut T, row: &Row, before: &Seen) {
    sees(rt, &machine.see(), before);
    let mut shown = machine.call(row.told());
    if shown.found_no_memory() {
        sees(rt, &machine.see(), before);
        rt.retry();
        shown = machine.call(row.told());
    }
    shows(rt, &shown, &row.wanted());
}

/// Does the commands of rows, and then makes a turn of the machine, which is seen so before it.
fn stays_behind<T: Machine>(
    rt: &Host<impl Abort>,
    alloc: Global,
    rows: &[Row],
    last: &Row,
    before: &Seen,
) {
    let mut machine = T::begun(rt, alloc, &PLAIN);
    play(rt, &mut machine, rows);
    turns_or_stays(rt, &mut machine, last, before);
    drop(machine);
}

/// A growth of the second turn is refused: state, data and what waits are as they were, and tried again the turn
/// reports the same.
#[test]
fn a_refused_turn_changes_nothing(rt: HostRuntime) {
    static ROWS: [Row; 3] = [
        Tells(Cast(10), Posted(1)),
        Tells(Cast(11), Posted(2)),
        Turns(0, 1, Kind::Cast, 0, 0, &[PutsOff]),
    ];
    static LAST: Row = Turns(0, 2, Kind::Cast, 0, 1, &[PutsOff, Inserts(3), Inserts(4)]);
    static BEFORE: Seen = Seen {
        is_ready: true,
        has_event: true,
        waiting: 2,
        ..AT_REST
    };
    let rt = Host::new(rt);
    stays_behind::<Core<Table>>(&rt, rt.alloc(), &ROWS, &LAST, &BEFORE);
    rt.end();
}

#[test]
fn postponed_events_stay_without_a_change(rt: HostRuntime) {
    static ROWS: [Row; 7] = [
        Tells(Cast(10), Posted(1)),
        Tells(Cast(12), Posted(2)),
        Turns(0, 1, Kind::Cast, 0, 0, &[PutsOff]),
        Turns(0, 2, Kind::Cast, 0, 0, &[PutsOff, Inserts(3), Inserts(4)]),
        Turns(0, 3, Kind::Internal, 0, 0, &[]),
        Turns(0, 4, Kind::Cast, 0, 0, &[]),
        Tells(Turn(0), Idle),
    ];
    static END: Seen = Seen {
        waiting: 2,
        ..AT_REST
    };
    answers_are(rt, &PLAIN, &ROWS, &END);
}

#[test]
fn the_same_state_retries_nothing(rt: HostRuntime) {
    static ROWS: [Row; 5] = [
        Tells(Cast(10), Posted(1)),
        Tells(Cast(9), Posted(2)),
        Turns(0, 1, Kind::Cast, 0, 0, &[PutsOff]),
        Turns(0, 2, Kind::Cast, 0, 0, &[]),
        Tells(Turn(0), Idle),
    ];
    static END: Seen = Seen {
        waiting: 1,
        ..AT_REST
    };
    answers_are(rt, &PLAIN, &ROWS, &END);
}

#[test]
fn the_last_postpone_decides(rt: HostRuntime) {
    static ROWS: [Row; 5] = [
        Tells(Cast(13), Posted(1)),
        Tells(Cast(14), Posted(2)),
        Turns(0, 1, Kind::Cast, 0, 0, &[PutsOff]),
        Turns(0, 2, Kind::Cast, 0, 0, &[]),
        Tells(Turn(0), Idle),
    ];
    static END: Seen = Seen {
        waiting: 1,
        ..AT_REST
    };
    answers_are(rt, &PLAIN, &ROWS, &END);
}

/// One event was posted before the insertion, and one is posted after it.
#[test]
fn inserted_events_come_before_posted_ones(rt: HostRuntime) {
    static ROWS: [Row; 9] = [
        Tells(Cast(7), Posted(1)),
        Tells(Cast(0), Posted(2)),
        Turns(0, 1, Kind::Cast, 0, 0, &[Inserts(3), Inserts(4)]),
        Tells(Cast(0), Posted(5)),
        Turns(0, 3, Kind::Internal, 0, 0, &[]),
        Turns(0, 4, Kind::Cast, 0, 0, &[]),
        Turns(0, 2, Kind::Cast, 0, 0, &[]),
        Turns(0, 5, Kind::Cast, 0, 0, &[]),
        Tells(Turn(0), Idle),
    ];
    answers_are(rt, &PLAIN, &ROWS, &RESTING);
}

#[test]
fn inserted_events_stand_behind_postponed_ones(rt: HostRuntime) {
    static ROWS: [Row; 9] = [
        Tells(Cast(10), Posted(1)),
        Tells(Cast(12), Posted(2)),
        Turns(0, 1, Kind::Cast, 0, 0, &[PutsOff]),
        Tells(Cast(0), Posted(3)),
        Turns(0, 2, Kind::Cast, 0, 0, &[PutsOff, Inserts(4), Inserts(5)]),
        Turns(0, 4, Kind::Internal, 0, 0, &[]),
        Turns(0, 5, Kind::Cast, 0, 0, &[]),
        Turns(0, 3, Kind::Cast, 0, 0, &[]),
        Tells(Turn(0), Idle),
    ];
    static END: Seen = Seen {
        waiting: 2,
        ..AT_REST
    };
    answers_are(rt, &PLAIN, &ROWS, &END);
}

/// What an inserted event inserts comes before what was inserted with it.
#[test]
fn inserted_events_come_before_inserted_ones(rt: HostRuntime) {
    static ROWS: [Row; 7] = [
        Tells(Cast(8), Posted(1)),
        Turns(0, 1, Kind::Cast, 0, 0, &[Inserts(2), Inserts(3)]),
        Turns(0, 2, Kind::Internal, 0, 0, &[Inserts(4), Inserts(5)]),
        Turns(0, 4, Kind::Internal, 0, 0, &[]),
        Turns(0, 5, Kind::Cast, 0, 0, &[]),
        Turns(0, 3, Kind::Cast, 0, 0, &[]),
        Tells(Turn(0), Idle),
    ];
    answers_are(rt, &PLAIN, &ROWS, &RESTING);
}

#[test]
fn inserted_at_the_start_come_first(rt: HostRuntime) {
    static START: Begin<Table> = Begin {
        arg: 3,
        now: 12,
        first: Some(5),
        inserted: &[5, 6],
        ..BEGIN
    };
    static ROWS: [Row; 5] = [
        Tells(Cast(0), Posted(7)),
        Turns(0, 5, Kind::Internal, 0, 0, &[]),
        Turns(0, 6, Kind::Cast, 0, 0, &[]),
        Turns(0, 7, Kind::Cast, 0, 0, &[]),
        Tells(Turn(0), Idle),
    ];
    static END: Seen = Seen {
        latest: 12,
        ..AT_REST
    };
    answers_are(rt, &START, &ROWS, &END);
}

/// Two events are to be inserted, and one number is left. A moment out of range is told first.
#[test]
fn inserts_need_numbers(rt: HostRuntime) {
    static START: Begin<Table> = Begin {
        now: 3,
        first: Some(9_223_372_036_854_775_806),
        ..BEGIN
    };
    static ROWS: [Row; 6] = [
        Tells(Cast(7), Posted(9_223_372_036_854_775_806)),
        Tells(Turn(20), NotTurned(Refusal::Exhausted)),
        Tells(Turn(9_223_372_036_854_775_808), NotTurned(Refusal::Moment)),
        Tells(Turn(30), NotTurned(Refusal::Exhausted)),
        Tells(Cast(0), Posted(9_223_372_036_854_775_807)),
        Tells(Turn(40), NotTurned(Refusal::Exhausted)),
    ];
    static END: Seen = Seen {
        is_ready: true,
        has_event: true,
        latest: 3,
        waiting: 2,
        ..AT_REST
    };
    answers_are(rt, &START, &ROWS, &END);
}

#[test]
fn the_last_numbers_are_inserted(rt: HostRuntime) {
    static START: Begin<Table> = Begin {
        now: 3,
        first: Some(9_223_372_036_854_775_805),
        ..BEGIN
    };
    static ROWS: [Row; 6] = [
        Tells(Cast(7), Posted(9_223_372_036_854_775_805)),
        Turns(
            20,
            9_223_372_036_854_775_805,
            Kind::Cast,
            0,
            0,
            &[
                Inserts(9_223_372_036_854_775_806),
                Inserts(9_223_372_036_854_775_807),
            ],
        ),
        Tells(Cast(6), NotPosted(Refusal::Exhausted, 6)),
        Turns(20, 9_223_372_036_854_775_806, Kind::Internal, 0, 0, &[]),
        Turns(20, 9_223_372_036_854_775_807, Kind::Cast, 0, 0, &[]),
        Tells(Turn(20), Idle),
    ];
    static END: Seen = Seen {
        latest: 20,
        ..AT_REST
    };
    answers_are(rt, &START, &ROWS, &END);
}
