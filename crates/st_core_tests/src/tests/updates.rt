//! Time-outs cancelled and updated. Where an event has the content 4, the machine's data are 9 after it.
use super::begin::Begin;
use super::row::More::{Cancels, Enters, Sends, Sets, Updates};
use super::row::Row;
use super::row::Row::{Tells, Turns};
use super::seen::{Running, Seen};
use super::shown::Shown::{Idle, NotPosted, NotTurned, Posted, Ticked};
use super::table::Table;
use super::table_machine::{AT_REST, BEGIN, PLAIN, RESTING, answers_are, timers_are};
use super::told::Told::{Cast, Tick, Turn};
use st_core::Time::After;
use st_core::Timer::Named;
use st_core::{Decision, Due, Kind, Refusal, Timer};

/// A machine whose `init` sets the named timer 5 for 5.
const ONE_TIMER: Begin<Table> = Begin {
    arg: 5,
    set: &[(Named(5), Decision::Set(After(5)))],
    ..BEGIN
};

/// The same, to be borrowed.
static WITH_TIMER: Begin<Table> = ONE_TIMER;

/// The expiry waits behind the event that updates, and stays; the event that it becomes has the new content.
#[test]
fn an_update_keeps_the_expiry_that_waits(rt: HostRuntime) {
    static ROWS: [Row; 5] = [
        Tells(Cast(43), Posted(2)),
        Tells(Tick(5), Ticked(1)),
        Turns(5, 2, Kind::Cast, 0, 0, &[Updates(Named(5))]),
        Turns(5, 1, Kind::Timeout(Named(5)), 0, 0, &[]),
        Tells(Turn(5), Idle),
    ];
    static END: Seen = Seen {
        held: 9,
        latest: 5,
        ..AT_REST
    };
    answers_are(rt, &WITH_TIMER, &ROWS, &END);
}

#[test]
fn an_update_of_a_timer_that_does_not_run_sets_it_for_no_time(rt: HostRuntime) {
    static ROWS: [Row; 4] = [
        Tells(Cast(43), Posted(1)),
        Turns(0, 1, Kind::Cast, 0, 0, &[Updates(Named(5))]),
        Turns(0, 2, Kind::Timeout(Named(5)), 0, 0, &[]),
        Tells(Turn(0), Idle),
    ];
    static END: Seen = Seen { held: 9, ..AT_REST };
    answers_are(rt, &PLAIN, &ROWS, &END);
}

/// Its number and its moment stay.
#[test]
fn of_a_setting_and_a_later_update_the_update_decides(rt: HostRuntime) {
    static ROWS: [Row; 4] = [
        Tells(Cast(47), Posted(1)),
        Turns(0, 1, Kind::Cast, 0, 0, &[Sets(Named(5), After(10))]),
        Tells(Cast(44), Posted(3)),
        Turns(0, 3, Kind::Cast, 0, 0, &[Updates(Named(5))]),
    ];
    static TIMERS: [Running; 1] = [(Named(5), 2, Due::At(10))];
    timers_are(rt, &PLAIN, &ROWS, &RESTING, &TIMERS);
}

#[test]
fn of_an_update_and_a_later_setting_the_setting_decides(rt: HostRuntime) {
    static ROWS: [Row; 4] = [
        Tells(Cast(47), Posted(1)),
        Turns(0, 1, Kind::Cast, 0, 0, &[Sets(Named(5), After(10))]),
        Tells(Cast(45), Posted(3)),
        Turns(0, 3, Kind::Cast, 0, 0, &[Sets(Named(5), After(20))]),
    ];
    static TIMERS: [Running; 1] = [(Named(5), 4, Due::At(20))];
    timers_are(rt, &PLAIN, &ROWS, &RESTING, &TIMERS);
}

/// Its expiry waits no more, and the machine is not ready.
#[test]
fn a_time_out_that_has_expired_can_be_cancelled(rt: HostRuntime) {
    static ROWS: [Row; 4] = [
        Tells(Cast(46), Posted(2)),
        Tells(Tick(5), Ticked(1)),
        Turns(5, 2, Kind::Cast, 0, 0, &[Cancels(Named(5))]),
        Tells(Turn(5), Idle),
    ];
    static END: Seen = Seen {
        latest: 5,
        ..AT_REST
    };
    answers_are(rt, &WITH_TIMER, &ROWS, &END);
}

/// The event that updates it has cancelled it already.
#[test]
fn an_update_of_the_event_time_out_sets_it_for_no_time(rt: HostRuntime) {
    static ROWS: [Row; 6] = [
        Tells(Cast(29), Posted(1)),
        Turns(0, 1, Kind::Cast, 0, 0, &[Sets(Timer::Event, After(5))]),
        Tells(Cast(48), Posted(3)),
        Turns(0, 3, Kind::Cast, 0, 0, &[Updates(Timer::Event)]),
        Turns(0, 4, Kind::Timeout(Timer::Event), 0, 0, &[]),
        Tells(Tick(5), Ticked(0)),
    ];
    static END: Seen = Seen {
        held: 9,
        latest: 5,
        ..AT_REST
    };
    answers_are(rt, &PLAIN, &ROWS, &END);
}

#[test]
fn an_update_of_the_state_time_out_keeps_it_where_the_state_stays(rt: HostRuntime) {
    static ROWS: [Row; 7] = [
        Tells(Cast(28), Posted(1)),
        Turns(0, 1, Kind::Cast, 0, 0, &[Sets(Timer::State, After(5))]),
        Tells(Cast(49), Posted(3)),
        Turns(0, 3, Kind::Cast, 0, 0, &[Updates(Timer::State)]),
        Tells(Tick(4), Ticked(0)),
        Tells(Tick(5), Ticked(1)),
        Turns(5, 2, Kind::Timeout(Timer::State), 0, 0, &[]),
    ];
    static END: Seen = Seen {
        held: 9,
        latest: 5,
        ..AT_REST
    };
    answers_are(rt, &PLAIN, &ROWS, &END);
}

/// The change has cancelled it already.
#[test]
fn an_update_of_the_state_time_out_at_a_state_change_sets_it_for_no_time(rt: HostRuntime) {
    static ROWS: [Row; 6] = [
        Tells(Cast(28), Posted(1)),
        Turns(0, 1, Kind::Cast, 0, 0, &[Sets(Timer::State, After(5))]),
        Tells(Cast(50), Posted(3)),
        Turns(0, 3, Kind::Cast, 0, 1, &[Updates(Timer::State)]),
        Turns(0, 4, Kind::Timeout(Timer::State), 1, 1, &[]),
        Tells(Tick(5), Ticked(0)),
    ];
    static END: Seen = Seen {
        state: 1,
        held: 9,
        latest: 5,
        ..AT_REST
    };
    answers_are(rt, &PLAIN, &ROWS, &END);
}

/// The time-out whose event is handled runs no more.
#[test]
fn a_time_outs_own_event_updates_it_anew(rt: HostRuntime) {
    static START: Begin<Table> = Begin {
        arg: 11,
        ..ONE_TIMER
    };
    static ROWS: [Row; 4] = [
        Tells(Tick(5), Ticked(1)),
        Turns(5, 1, Kind::Timeout(Named(5)), 0, 0, &[Updates(Named(5))]),
        Turns(5, 2, Kind::Timeout(Named(5)), 0, 0, &[]),
        Tells(Turn(5), Idle),
    ];
    static END: Seen = Seen {
        held: 9,
        latest: 5,
        ..AT_REST
    };
    answers_are(rt, &START, &ROWS, &END);
}

/// After it no number is left.
#[test]
fn an_update_of_a_time_out_that_runs_needs_no_number(rt: HostRuntime) {
    static START: Begin<Table> = Begin {
        first: Some(9_223_372_036_854_775_806),
        ..ONE_TIMER
    };
    static ROWS: [Row; 3] = [
        Tells(Cast(43), Posted(9_223_372_036_854_775_807)),
        Turns(
            0,
            9_223_372_036_854_775_807,
            Kind::Cast,
            0,
            0,
            &[Updates(Named(5))],
        ),
        Tells(Cast(0), NotPosted(Refusal::Exhausted, 0)),
    ];
    static TIMERS: [Running; 1] = [(Named(5), 9_223_372_036_854_775_806, Due::At(5))];
    timers_are(rt, &START, &ROWS, &RESTING, &TIMERS);
}

#[test]
fn an_update_that_sets_needs_a_number(rt: HostRuntime) {
    static START: Begin<Table> = Begin {
        first: Some(9_223_372_036_854_775_807),
        ..BEGIN
    };
    static ROWS: [Row; 2] = [
        Tells(Cast(43), Posted(9_223_372_036_854_775_807)),
        Tells(Turn(4), NotTurned(Refusal::Exhausted)),
    ];
    static END: Seen = Seen {
        is_ready: true,
        has_event: true,
        waiting: 1,
        ..AT_REST
    };
    answers_are(rt, &START, &ROWS, &END);
}

#[test]
fn an_enter_call_updates(rt: HostRuntime) {
    static START: Begin<Table> = Begin {
        module: Table { number: 67 },
        ..ONE_TIMER
    };
    static ROWS: [Row; 4] = [
        Tells(Cast(3), Posted(2)),
        Turns(0, 2, Kind::Cast, 0, 1, &[Enters, Updates(Named(5))]),
        Tells(Tick(5), Ticked(1)),
        Turns(5, 1, Kind::Timeout(Named(5)), 1, 1, &[]),
    ];
    static END: Seen = Seen {
        state: 1,
        held: 9,
        latest: 5,
        ..AT_REST
    };
    answers_are(rt, &START, &ROWS, &END);
}

#[test]
fn an_enter_call_cancels(rt: HostRuntime) {
    static START: Begin<Table> = Begin {
        module: Table { number: 68 },
        ..ONE_TIMER
    };
    static ROWS: [Row; 3] = [
        Tells(Cast(3), Posted(2)),
        Turns(0, 2, Kind::Cast, 0, 1, &[Enters, Cancels(Named(5))]),
        Tells(Tick(5), Ticked(0)),
    ];
    static END: Seen = Seen {
        state: 1,
        latest: 5,
        ..AT_REST
    };
    answers_are(rt, &START, &ROWS, &END);
}

#[test]
fn a_start_updates(rt: HostRuntime) {
    static START: Begin<Table> = Begin {
        arg: 10,
        set: &[(Named(5), Decision::Update)],
        ..BEGIN
    };
    static ROWS: [Row; 2] = [
        Turns(0, 1, Kind::Timeout(Named(5)), 0, 0, &[]),
        Tells(Turn(0), Idle),
    ];
    static END: Seen = Seen { held: 9, ..AT_REST };
    answers_are(rt, &START, &ROWS, &END);
}

/// Of two for one timer the last decides. The message waits until it is taken out.
#[test]
fn six_requests_are_made_in_one_list(rt: HostRuntime) {
    static ROWS: [Row; 5] = [
        Tells(Cast(51), Posted(2)),
        Turns(
            0,
            2,
            Kind::Cast,
            0,
            0,
            &[
                Cancels(Named(1)),
                Updates(Named(5)),
                Updates(Timer::State),
                Sends(1),
            ],
        ),
        Turns(0, 3, Kind::Timeout(Timer::State), 0, 0, &[]),
        Tells(Tick(5), Ticked(1)),
        Turns(5, 1, Kind::Timeout(Named(5)), 0, 1, &[]),
    ];
    static END: Seen = Seen {
        is_ready: true,
        has_message: true,
        state: 1,
        held: 9,
        latest: 5,
        ..AT_REST
    };
    answers_are(rt, &WITH_TIMER, &ROWS, &END);
}
