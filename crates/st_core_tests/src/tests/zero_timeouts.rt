//! Time-outs that are due at once.
use super::begin::Begin;
use super::row::More::{Inserts, PutsOff, Sets};
use super::row::Row;
use super::row::Row::{Tells, Turns};
use super::seen::{Running, Seen};
use super::shown::Shown::{Idle, Posted, Ticked};
use super::table::Table;
use super::table_machine::{AT_REST, BEGIN, PLAIN, RESTING, answers_are, timers_are};
use super::told::Told::{Cast, Tick, Turn};
use st_core::Time::After;
use st_core::Timer::Named;
use st_core::{Decision, Due, Kind, Time, Timer};

const AT_ONCE: Time = After(0);

/// Of two time-outs that are due at once the first requested comes, and it cancels that of the event.
#[test]
fn the_first_zero_time_out_cancels_that_of_the_event(rt: HostRuntime) {
    static ROWS: [Row; 4] = [
        Tells(Cast(22), Posted(1)),
        Turns(
            0,
            1,
            Kind::Cast,
            0,
            0,
            &[Sets(Timer::State, AT_ONCE), Sets(Timer::Event, AT_ONCE)],
        ),
        Turns(0, 2, Kind::Timeout(Timer::State), 0, 0, &[]),
        Tells(Turn(0), Idle),
    ];
    answers_are(rt, &PLAIN, &ROWS, &RESTING);
}

#[test]
fn both_zero_time_outs_come_where_that_of_the_event_is_first(rt: HostRuntime) {
    static ROWS: [Row; 5] = [
        Tells(Cast(23), Posted(1)),
        Turns(
            0,
            1,
            Kind::Cast,
            0,
            0,
            &[Sets(Timer::Event, AT_ONCE), Sets(Timer::State, AT_ONCE)],
        ),
        Turns(0, 2, Kind::Timeout(Timer::Event), 0, 0, &[]),
        Turns(0, 3, Kind::Timeout(Timer::State), 0, 0, &[]),
        Tells(Turn(0), Idle),
    ];
    answers_are(rt, &PLAIN, &ROWS, &RESTING);
}

/// As long as they have not come they run, and a moment that passes does not make them expire.
#[test]
fn zero_time_outs_run_until_they_come(rt: HostRuntime) {
    static ROWS: [Row; 3] = [
        Tells(Cast(22), Posted(1)),
        Turns(
            4,
            1,
            Kind::Cast,
            0,
            0,
            &[Sets(Timer::State, AT_ONCE), Sets(Timer::Event, AT_ONCE)],
        ),
        Tells(Tick(9), Ticked(0)),
    ];
    static END: Seen = Seen {
        is_ready: true,
        has_event: true,
        latest: 9,
        ..AT_REST
    };
    static TIMERS: [Running; 2] = [(Timer::State, 2, Due::Zero), (Timer::Event, 3, Due::Zero)];
    timers_are(rt, &PLAIN, &ROWS, &END, &TIMERS);
}

#[test]
fn a_zero_time_out_comes_before_a_posted_event(rt: HostRuntime) {
    static ROWS: [Row; 6] = [
        Tells(Cast(22), Posted(1)),
        Tells(Cast(0), Posted(2)),
        Turns(
            0,
            1,
            Kind::Cast,
            0,
            0,
            &[Sets(Timer::State, AT_ONCE), Sets(Timer::Event, AT_ONCE)],
        ),
        Turns(0, 3, Kind::Timeout(Timer::State), 0, 0, &[]),
        Turns(0, 2, Kind::Cast, 0, 0, &[]),
        Tells(Turn(0), Idle),
    ];
    answers_are(rt, &PLAIN, &ROWS, &RESTING);
}

/// While an inserted event is left it waits, and that event sets it for 5.
#[test]
fn a_waiting_zero_time_out_that_is_set_anew_comes_later(rt: HostRuntime) {
    static ROWS: [Row; 8] = [
        Tells(Cast(25), Posted(1)),
        Turns(
            0,
            1,
            Kind::Cast,
            0,
            0,
            &[Inserts(2), Sets(Named(1), AT_ONCE)],
        ),
        Turns(0, 2, Kind::Internal, 0, 0, &[Sets(Named(1), After(5))]),
        Tells(Turn(0), Idle),
        Tells(Tick(4), Ticked(0)),
        Tells(Tick(5), Ticked(1)),
        Turns(5, 4, Kind::Timeout(Named(1)), 0, 0, &[]),
        Tells(Turn(5), Idle),
    ];
    static END: Seen = Seen {
        latest: 5,
        ..AT_REST
    };
    answers_are(rt, &PLAIN, &ROWS, &END);
}

/// It is an event like any other from then on, and comes again when the state has changed.
#[test]
fn the_event_of_a_zero_time_out_can_be_postponed(rt: HostRuntime) {
    static ROWS: [Row; 8] = [
        Tells(Cast(30), Posted(1)),
        Turns(0, 1, Kind::Cast, 0, 0, &[Sets(Named(2), AT_ONCE)]),
        Turns(0, 2, Kind::Timeout(Named(2)), 0, 0, &[PutsOff]),
        Tells(Turn(0), Idle),
        Tells(Cast(3), Posted(3)),
        Turns(0, 3, Kind::Cast, 0, 1, &[]),
        Turns(0, 2, Kind::Timeout(Named(2)), 1, 1, &[]),
        Tells(Turn(0), Idle),
    ];
    static END: Seen = Seen {
        state: 1,
        ..AT_REST
    };
    answers_are(rt, &PLAIN, &ROWS, &END);
}

#[test]
fn the_event_of_a_time_out_waits_where_it_is_postponed(rt: HostRuntime) {
    static ROWS: [Row; 3] = [
        Tells(Cast(30), Posted(1)),
        Turns(0, 1, Kind::Cast, 0, 0, &[Sets(Named(2), AT_ONCE)]),
        Turns(0, 2, Kind::Timeout(Named(2)), 0, 0, &[PutsOff]),
    ];
    static END: Seen = Seen {
        waiting: 1,
        ..AT_REST
    };
    answers_are(rt, &PLAIN, &ROWS, &END);
}

/// They have the lower numbers too, though the time-out stands first in the list.
#[test]
fn inserted_events_of_a_start_come_before_its_zero_time_out(rt: HostRuntime) {
    static START: Begin<Table> = Begin {
        arg: 8,
        inserted: &[1, 2],
        set: &[(Named(1), Decision::Set(AT_ONCE))],
        ..BEGIN
    };
    static ROWS: [Row; 6] = [
        Tells(Cast(0), Posted(4)),
        Turns(0, 1, Kind::Internal, 0, 0, &[]),
        Turns(0, 2, Kind::Cast, 0, 0, &[]),
        Turns(0, 3, Kind::Timeout(Named(1)), 0, 0, &[]),
        Turns(0, 4, Kind::Cast, 0, 0, &[]),
        Tells(Turn(0), Idle),
    ];
    answers_are(rt, &START, &ROWS, &RESTING);
}
