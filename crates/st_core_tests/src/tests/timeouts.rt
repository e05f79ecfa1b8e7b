//! Time-outs: set, stopped, expired, and cancelled.
use super::begin::Begin;
use super::row::More::{Ends, Sets};
use super::row::Row;
use super::row::Row::{Tells, Turns};
use super::seen::{Running, Seen};
use super::shown::Shown::{Idle, NotPosted, NotTicked, NotTurned, Posted, Stopped, Ticked};
use super::table::Table;
use super::table_machine::{AT_REST, BEGIN, PLAIN, answers_are, timers_are};
use super::told::Told::{Cast, Stop, Tick, Turn};
use st_core::Time::After;
use st_core::Timer::Named;
use st_core::{Decision, Due, Kind, Refusal, Time, Timer};

const NOT_AT_ALL: Time = Time::Infinity;

const AT_ONCE: Time = After(0);

/// A machine whose `init` sets the named timer 5 for 5.
static ONE_TIMER: Begin<Table> = Begin {
    arg: 5,
    set: &[(Named(5), Decision::Set(After(5)))],
    ..BEGIN
};

/// Its expiry waits no more, and the machine is not ready.
#[test]
fn a_time_out_that_has_expired_can_be_stopped(rt: HostRuntime) {
    static ROWS: [Row; 4] = [
        Tells(Cast(24), Posted(2)),
        Tells(Tick(5), Ticked(1)),
        Turns(5, 2, Kind::Cast, 0, 0, &[Sets(Named(5), NOT_AT_ALL)]),
        Tells(Turn(5), Idle),
    ];
    static END: Seen = Seen {
        latest: 5,
        ..AT_REST
    };
    answers_are(rt, &ONE_TIMER, &ROWS, &END);
}

#[test]
fn a_named_time_out_comes(rt: HostRuntime) {
    static ROWS: [Row; 5] = [
        Tells(Tick(4), Ticked(0)),
        Tells(Tick(5), Ticked(1)),
        Tells(Tick(6), Ticked(0)),
        Turns(6, 1, Kind::Timeout(Named(5)), 0, 0, &[]),
        Tells(Tick(20), Ticked(0)),
    ];
    static END: Seen = Seen {
        latest: 20,
        ..AT_REST
    };
    answers_are(rt, &ONE_TIMER, &ROWS, &END);
}

/// Its expiry waits, and no other comes of it.
#[test]
fn a_time_out_runs_until_it_is_handled(rt: HostRuntime) {
    static ROWS: [Row; 2] = [Tells(Tick(5), Ticked(1)), Tells(Tick(9), Ticked(0))];
    static END: Seen = Seen {
        is_ready: true,
        has_event: true,
        latest: 9,
        ..AT_REST
    };
    static TIMERS: [Running; 1] = [(Named(5), 1, Due::At(5))];
    timers_are(rt, &ONE_TIMER, &ROWS, &END, &TIMERS);
}

/// The last moment is accepted, and the one after it is refused.
#[test]
fn a_time_out_may_be_due_beyond_the_last_moment(rt: HostRuntime) {
    static START: Begin<Table> = Begin {
        arg: 6,
        now: 9_223_372_036_854_775_807,
        set: &[(Named(1), Decision::Set(After(4_294_967_295)))],
        ..BEGIN
    };
    static ROWS: [Row; 2] = [
        Tells(Tick(9_223_372_036_854_775_807), Ticked(0)),
        Tells(Tick(9_223_372_036_854_775_808), NotTicked(Refusal::Moment)),
    ];
    static END: Seen = Seen {
        latest: 9_223_372_036_854_775_807,
        ..AT_REST
    };
    static TIMERS: [Running; 1] = [(Named(1), 1, Due::At(9_223_372_041_149_743_102))];
    timers_are(rt, &START, &ROWS, &END, &TIMERS);
}

/// Two of them are due at one moment.
#[test]
fn time_outs_expire_by_moment_and_then_by_number(rt: HostRuntime) {
    static START: Begin<Table> = Begin {
        arg: 7,
        set: &[
            (Named(1), Decision::Set(After(20))),
            (Named(2), Decision::Set(After(10))),
            (Named(3), Decision::Set(After(20))),
        ],
        ..BEGIN
    };
    static ROWS: [Row; 5] = [
        Tells(Tick(20), Ticked(3)),
        Turns(20, 2, Kind::Timeout(Named(2)), 0, 0, &[]),
        Turns(20, 1, Kind::Timeout(Named(1)), 0, 0, &[]),
        Turns(20, 3, Kind::Timeout(Named(3)), 0, 0, &[]),
        Tells(Turn(20), Idle),
    ];
    static END: Seen = Seen {
        latest: 20,
        ..AT_REST
    };
    answers_are(rt, &START, &ROWS, &END);
}

#[test]
fn time_outs_are_listed_in_the_order_of_their_requests(rt: HostRuntime) {
    static START: Begin<Table> = Begin {
        arg: 7,
        set: &[
            (Named(1), Decision::Set(After(20))),
            (Named(2), Decision::Set(After(10))),
            (Named(3), Decision::Set(After(20))),
        ],
        ..BEGIN
    };
    static ROWS: [Row; 2] = [
        Tells(Tick(10), Ticked(1)),
        Turns(10, 2, Kind::Timeout(Named(2)), 0, 0, &[]),
    ];
    static END: Seen = Seen {
        latest: 10,
        ..AT_REST
    };
    static TIMERS: [Running; 2] = [(Named(1), 1, Due::At(20)), (Named(3), 3, Due::At(20))];
    timers_are(rt, &START, &ROWS, &END, &TIMERS);
}

#[test]
fn the_event_time_out_comes_where_no_event_does(rt: HostRuntime) {
    static ROWS: [Row; 5] = [
        Tells(Cast(29), Posted(1)),
        Turns(0, 1, Kind::Cast, 0, 0, &[Sets(Timer::Event, After(5))]),
        Tells(Tick(5), Ticked(1)),
        Turns(5, 2, Kind::Timeout(Timer::Event), 0, 0, &[]),
        Tells(Turn(5), Idle),
    ];
    static END: Seen = Seen {
        latest: 5,
        ..AT_REST
    };
    answers_are(rt, &PLAIN, &ROWS, &END);
}

#[test]
fn any_event_cancels_the_event_time_out(rt: HostRuntime) {
    static ROWS: [Row; 6] = [
        Tells(Cast(29), Posted(1)),
        Tells(Cast(0), Posted(2)),
        Turns(0, 1, Kind::Cast, 0, 0, &[Sets(Timer::Event, After(5))]),
        Turns(0, 2, Kind::Cast, 0, 0, &[]),
        Tells(Tick(5), Ticked(0)),
        Tells(Turn(5), Idle),
    ];
    static END: Seen = Seen {
        latest: 5,
        ..AT_REST
    };
    answers_are(rt, &PLAIN, &ROWS, &END);
}

/// Its expiry waits behind that event, and goes with it.
#[test]
fn an_event_cancels_the_event_time_out_that_has_expired(rt: HostRuntime) {
    static ROWS: [Row; 6] = [
        Tells(Cast(29), Posted(1)),
        Turns(0, 1, Kind::Cast, 0, 0, &[Sets(Timer::Event, After(5))]),
        Tells(Cast(0), Posted(3)),
        Tells(Tick(5), Ticked(1)),
        Turns(5, 3, Kind::Cast, 0, 0, &[]),
        Tells(Turn(5), Idle),
    ];
    static END: Seen = Seen {
        latest: 5,
        ..AT_REST
    };
    answers_are(rt, &PLAIN, &ROWS, &END);
}

/// The one that the same actions request runs.
#[test]
fn a_state_change_cancels_the_old_state_time_out_alone(rt: HostRuntime) {
    static ROWS: [Row; 8] = [
        Tells(Cast(28), Posted(1)),
        Tells(Cast(27), Posted(2)),
        Turns(0, 1, Kind::Cast, 0, 0, &[Sets(Timer::State, After(5))]),
        Turns(0, 2, Kind::Cast, 0, 1, &[Sets(Timer::State, After(10))]),
        Tells(Tick(5), Ticked(0)),
        Tells(Tick(10), Ticked(1)),
        Turns(10, 4, Kind::Timeout(Timer::State), 1, 1, &[]),
        Tells(Turn(10), Idle),
    ];
    static END: Seen = Seen {
        state: 1,
        latest: 10,
        ..AT_REST
    };
    answers_are(rt, &PLAIN, &ROWS, &END);
}

#[test]
fn a_state_change_cancels_the_state_time_out_that_has_expired(rt: HostRuntime) {
    static ROWS: [Row; 6] = [
        Tells(Cast(28), Posted(1)),
        Tells(Cast(3), Posted(2)),
        Turns(0, 1, Kind::Cast, 0, 0, &[Sets(Timer::State, After(5))]),
        Tells(Tick(5), Ticked(1)),
        Turns(5, 2, Kind::Cast, 0, 1, &[]),
        Tells(Turn(5), Idle),
    ];
    static END: Seen = Seen {
        state: 1,
        latest: 5,
        ..AT_REST
    };
    answers_are(rt, &PLAIN, &ROWS, &END);
}

#[test]
fn the_same_state_keeps_the_state_time_out(rt: HostRuntime) {
    static ROWS: [Row; 6] = [
        Tells(Cast(28), Posted(1)),
        Tells(Cast(9), Posted(2)),
        Turns(0, 1, Kind::Cast, 0, 0, &[Sets(Timer::State, After(5))]),
        Turns(0, 2, Kind::Cast, 0, 0, &[]),
        Tells(Tick(5), Ticked(1)),
        Turns(5, 3, Kind::Timeout(Timer::State), 0, 0, &[]),
    ];
    static END: Seen = Seen {
        latest: 5,
        ..AT_REST
    };
    answers_are(rt, &PLAIN, &ROWS, &END);
}

#[test]
fn a_state_change_keeps_a_named_time_out(rt: HostRuntime) {
    static ROWS: [Row; 2] = [
        Tells(Cast(3), Posted(2)),
        Turns(1, 2, Kind::Cast, 0, 1, &[]),
    ];
    static END: Seen = Seen {
        state: 1,
        latest: 1,
        ..AT_REST
    };
    static TIMERS: [Running; 1] = [(Named(5), 1, Due::At(5))];
    timers_are(rt, &ONE_TIMER, &ROWS, &END, &TIMERS);
}

/// The last setting of a list decides; the expiry that waits is passed over.
#[test]
fn a_time_out_that_has_expired_can_be_set_anew(rt: HostRuntime) {
    static ROWS: [Row; 10] = [
        Tells(Cast(31), Posted(1)),
        Tells(Cast(26), Posted(2)),
        Turns(0, 1, Kind::Cast, 0, 0, &[Sets(Named(1), After(7))]),
        Tells(Tick(7), Ticked(1)),
        Turns(7, 2, Kind::Cast, 0, 0, &[Sets(Named(1), After(5))]),
        Tells(Turn(7), Idle),
        Tells(Tick(11), Ticked(0)),
        Tells(Tick(12), Ticked(1)),
        Turns(12, 4, Kind::Timeout(Named(1)), 0, 0, &[]),
        Tells(Turn(12), Idle),
    ];
    static END: Seen = Seen {
        latest: 12,
        ..AT_REST
    };
    answers_are(rt, &PLAIN, &ROWS, &END);
}

/// In a tick, in a turn, and for the time-out that the turn sets.
#[test]
fn an_earlier_moment_counts_as_the_latest(rt: HostRuntime) {
    static ROWS: [Row; 4] = [
        Tells(Tick(10), Ticked(0)),
        Tells(Cast(28), Posted(1)),
        Tells(Tick(3), Ticked(0)),
        Turns(5, 1, Kind::Cast, 0, 0, &[Sets(Timer::State, After(5))]),
    ];
    static END: Seen = Seen {
        latest: 10,
        ..AT_REST
    };
    static TIMERS: [Running; 1] = [(Timer::State, 2, Due::At(15))];
    timers_are(rt, &PLAIN, &ROWS, &END, &TIMERS);
}

/// Two are to begin, and one number is left.
#[test]
fn time_outs_need_numbers(rt: HostRuntime) {
    static START: Begin<Table> = Begin {
        first: Some(9_223_372_036_854_775_806),
        ..BEGIN
    };
    static ROWS: [Row; 2] = [
        Tells(Cast(22), Posted(9_223_372_036_854_775_806)),
        Tells(Turn(4), NotTurned(Refusal::Exhausted)),
    ];
    static END: Seen = Seen {
        is_ready: true,
        has_event: true,
        waiting: 1,
        ..AT_REST
    };
    answers_are(rt, &START, &ROWS, &END);
}

#[test]
fn the_last_numbers_are_of_time_outs(rt: HostRuntime) {
    static START: Begin<Table> = Begin {
        first: Some(9_223_372_036_854_775_805),
        ..BEGIN
    };
    static ROWS: [Row; 3] = [
        Tells(Cast(22), Posted(9_223_372_036_854_775_805)),
        Turns(
            4,
            9_223_372_036_854_775_805,
            Kind::Cast,
            0,
            0,
            &[Sets(Timer::State, AT_ONCE), Sets(Timer::Event, AT_ONCE)],
        ),
        Tells(Cast(0), NotPosted(Refusal::Exhausted, 0)),
    ];
    static END: Seen = Seen {
        is_ready: true,
        has_event: true,
        latest: 4,
        ..AT_REST
    };
    static TIMERS: [Running; 2] = [
        (Timer::State, 9_223_372_036_854_775_806, Due::Zero),
        (Timer::Event, 9_223_372_036_854_775_807, Due::Zero),
    ];
    timers_are(rt, &START, &ROWS, &END, &TIMERS);
}

#[test]
fn a_time_out_that_is_stopped_needs_no_number(rt: HostRuntime) {
    static START: Begin<Table> = Begin {
        first: Some(9_223_372_036_854_775_807),
        ..BEGIN
    };
    static ROWS: [Row; 2] = [
        Tells(Cast(24), Posted(9_223_372_036_854_775_807)),
        Turns(
            4,
            9_223_372_036_854_775_807,
            Kind::Cast,
            0,
            0,
            &[Sets(Named(5), NOT_AT_ALL)],
        ),
    ];
    static END: Seen = Seen {
        latest: 4,
        ..AT_REST
    };
    answers_are(rt, &START, &ROWS, &END);
}

/// From then on a tick is refused, also at a moment out of range.
#[test]
fn a_stop_ends_the_time_outs(rt: HostRuntime) {
    static ROWS: [Row; 3] = [
        Tells(Stop(9), Stopped(7)),
        Tells(Tick(5), NotTicked(Refusal::Stopped(9))),
        Tells(
            Tick(9_223_372_036_854_775_808),
            NotTicked(Refusal::Stopped(9)),
        ),
    ];
    static END: Seen = Seen {
        ended: Some((9, 7)),
        ..AT_REST
    };
    answers_are(rt, &ONE_TIMER, &ROWS, &END);
}

#[test]
fn a_callback_that_stops_ends_the_time_outs(rt: HostRuntime) {
    static ROWS: [Row; 4] = [
        Tells(Tick(5), Ticked(1)),
        Tells(Cast(15), Posted(2)),
        Turns(5, 1, Kind::Timeout(Named(5)), 0, 0, &[]),
        Turns(6, 2, Kind::Cast, 0, 0, &[Ends(9, 7)]),
    ];
    static END: Seen = Seen {
        latest: 6,
        ended: Some((9, 7)),
        ..AT_REST
    };
    answers_are(rt, &ONE_TIMER, &ROWS, &END);
}
