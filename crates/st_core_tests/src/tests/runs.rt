//! Events that come one after another: their kinds, numbers and moments.
use super::begin::Begin;
use super::host::Host;
use super::machine::Machine;
use super::row::Row;
use super::row::Row::{Tells, Turns};
use super::seen::{Seen, sees};
use super::shown::Shown::{Idle, NotPosted, NotTurned, Posted};
use super::table::Table;
use super::table_machine::{AT_REST, BEGIN, PLAIN, RESTING, answers_are, rows_agree};
use super::told::Told::{Cast, Info, Turn};
use st_core::{Core, Kind, Refusal};
use std::alloc::Global;
use std::process::Abort;

#[test]
fn casts_come_in_order(rt: HostRuntime) {
    static ROWS: [Row; 5] = [
        Tells(Cast(3), Posted(1)),
        Tells(Cast(5), Posted(2)),
        Turns(20, 1, Kind::Cast, 0, 1, &[]),
        Turns(10, 2, Kind::Cast, 1, 1, &[]),
        Tells(Turn(30), Idle),
    ];
    static END: Seen = Seen {
        state: 1,
        latest: 30,
        ..AT_REST
    };
    answers_are(rt, &PLAIN, &ROWS, &END);
}

#[test]
fn an_info_comes_as_info(rt: HostRuntime) {
    static ROWS: [Row; 4] = [
        Tells(Info(5), Posted(1)),
        Tells(Cast(4), Posted(2)),
        Turns(0, 1, Kind::Info, 0, 0, &[]),
        Turns(0, 2, Kind::Cast, 0, 0, &[]),
    ];
    static END: Seen = Seen { held: 9, ..AT_REST };
    answers_are(rt, &PLAIN, &ROWS, &END);
}

#[test]
fn the_last_number_is_given_once(rt: HostRuntime) {
    static START: Begin<Table> = Begin {
        first: Some(9_223_372_036_854_775_807),
        ..BEGIN
    };
    static ROWS: [Row; 4] = [
        Tells(Cast(5), Posted(9_223_372_036_854_775_807)),
        Tells(Cast(6), NotPosted(Refusal::Exhausted, 6)),
        Turns(0, 9_223_372_036_854_775_807, Kind::Cast, 0, 0, &[]),
        Tells(Turn(0), Idle),
    ];
    answers_are(rt, &START, &ROWS, &RESTING);
}

#[test]
fn moments_end(rt: HostRuntime) {
    static ROWS: [Row; 4] = [
        Tells(Turn(9_223_372_036_854_775_808), NotTurned(Refusal::Moment)),
        Tells(Cast(3), Posted(1)),
        Tells(Turn(9_223_372_036_854_775_808), NotTurned(Refusal::Moment)),
        Turns(9_223_372_036_854_775_807, 1, Kind::Cast, 0, 1, &[]),
    ];
    static END: Seen = Seen {
        state: 1,
        latest: 9_223_372_036_854_775_807,
        ..AT_REST
    };
    answers_are(rt, &PLAIN, &ROWS, &END);
}

/// Starts a machine, and looks at it.
fn begins_as<T: Machine>(
    rt: &Host<impl Abort>,
    alloc: Global,
    begin: &Begin<Table>,
    wanted: &Seen,
) {
    let machine = T::begun(rt, alloc, begin);
    sees(rt, &machine.see(), wanted);
    drop(machine);
}

/// Each call that takes memory, and among them those that take none: an idle turn, and a post for
/// which no number is left.
#[test]
fn refused_memory_changes_nothing(rt: HostRuntime) {
    static START: Begin<Table> = Begin {
        arg: 2,
        now: 12,
        ..BEGIN
    };
    static BEGUN: Seen = Seen {
        latest: 12,
        ..AT_REST
    };
    static LATER: Begin<Table> = Begin {
        arg: 2,
        now: 12,
        first: Some(9_223_372_036_854_775_803),
        ..BEGIN
    };
    static ROWS: [Row; 13] = [
        Tells(Turn(12), Idle),
        Tells(Cast(6), Posted(9_223_372_036_854_775_803)),
        Tells(Info(3), Posted(9_223_372_036_854_775_804)),
        Tells(Cast(4), Posted(9_223_372_036_854_775_805)),
        Tells(Cast(5), Posted(9_223_372_036_854_775_806)),
        Tells(Cast(0), Posted(9_223_372_036_854_775_807)),
        Tells(Cast(8), NotPosted(Refusal::Exhausted, 8)),
        Turns(20, 9_223_372_036_854_775_803, Kind::Cast, 0, 0, &[]),
        Turns(20, 9_223_372_036_854_775_804, Kind::Info, 0, 1, &[]),
        Turns(21, 9_223_372_036_854_775_805, Kind::Cast, 1, 1, &[]),
        Turns(21, 9_223_372_036_854_775_806, Kind::Cast, 1, 1, &[]),
        Turns(22, 9_223_372_036_854_775_807, Kind::Cast, 1, 1, &[]),
        Tells(Turn(23), Idle),
    ];
    static END: Seen = Seen {
        state: 1,
        held: 9,
        latest: 23,
        ..AT_REST
    };
    let rt = Host::new(rt);
    begins_as::<Core<Table>>(&rt, rt.alloc(), &START, &BEGUN);
    rows_agree(&rt, rt.alloc(), &LATER, &ROWS, &END);
    rt.end();
}
