//! States that are entered, and repeated.
use super::answers::started;
use super::begin::{Begin, running};
use super::few::Few;
use super::host::{Host, same};
use super::machine::{Machine, timers_of};
use super::row::More::{Ends, Enters, Inserts, PutsOff, Sets};
use super::row::Row::{Tells, Turns};
use super::row::{More, Row};
use super::seen::{Running, Seen, sees};
use super::shown::Shown::{Idle, NotPosted, NotTurned, Posted, Ticked};
use super::shown::reports;
use super::table::Table;
use super::table_machine::{AT_REST, BEGIN, PLAIN, answers_are, rows_agree, timers_are};
use super::tested::play;
use super::told::Told::{Cast, Tick, Turn};
use st_core::Time::After;
use st_core::Timer::Named;
use st_core::{Decision, Due, Kind, Refusal, Timer};
use std::alloc::Global;
use std::process::Abort;

/// A `NextState` to the state in which the machine is makes no enter call and retries nothing.
#[test]
fn the_same_state_is_not_entered(rt: HostRuntime) {
    static START: Begin<Table> = Begin {
        module: Table { number: 60 },
        ..BEGIN
    };
    static ROWS: [Row; 5] = [
        Tells(Cast(10), Posted(1)),
        Turns(0, 1, Kind::Cast, 0, 0, &[PutsOff]),
        Tells(Cast(9), Posted(2)),
        Turns(0, 2, Kind::Cast, 0, 0, &[]),
        Tells(Turn(0), Idle),
    ];
    static END: Seen = Seen {
        waiting: 1,
        ..AT_REST
    };
    answers_are(rt, &START, &ROWS, &END);
}

#[test]
fn a_repeated_state_is_entered_and_retries_nothing(rt: HostRuntime) {
    static START: Begin<Table> = Begin {
        module: Table { number: 60 },
        ..BEGIN
    };
    static ROWS: [Row; 7] = [
        Tells(Cast(10), Posted(1)),
        Turns(0, 1, Kind::Cast, 0, 0, &[PutsOff]),
        Tells(Cast(32), Posted(2)),
        Turns(0, 2, Kind::Cast, 0, 0, &[Enters]),
        Tells(Cast(33), Posted(3)),
        Turns(0, 3, Kind::Cast, 0, 0, &[Enters]),
        Tells(Turn(0), Idle),
    ];
    static END: Seen = Seen {
        held: 9,
        waiting: 1,
        ..AT_REST
    };
    answers_are(rt, &START, &ROWS, &END);
}

/// Without enter calls a repeated state is a state that is kept.
#[test]
fn without_enter_calls_a_repeated_state_is_kept(rt: HostRuntime) {
    static ROWS: [Row; 7] = [
        Tells(Cast(10), Posted(1)),
        Turns(0, 1, Kind::Cast, 0, 0, &[PutsOff]),
        Tells(Cast(32), Posted(2)),
        Turns(0, 2, Kind::Cast, 0, 0, &[]),
        Tells(Cast(33), Posted(3)),
        Turns(0, 3, Kind::Cast, 0, 0, &[]),
        Tells(Turn(0), Idle),
    ];
    static END: Seen = Seen {
        held: 9,
        waiting: 1,
        ..AT_REST
    };
    answers_are(rt, &PLAIN, &ROWS, &END);
}

#[test]
fn a_repeated_state_keeps_its_time_out(rt: HostRuntime) {
    static START: Begin<Table> = Begin {
        module: Table { number: 60 },
        ..BEGIN
    };
    static ROWS: [Row; 6] = [
        Tells(Cast(28), Posted(1)),
        Turns(0, 1, Kind::Cast, 0, 0, &[Sets(Timer::State, After(5))]),
        Tells(Cast(32), Posted(3)),
        Turns(3, 3, Kind::Cast, 0, 0, &[Enters]),
        Tells(Tick(4), Ticked(0)),
        Tells(Tick(5), Ticked(1)),
    ];
    static END: Seen = Seen {
        is_ready: true,
        has_event: true,
        latest: 5,
        ..AT_REST
    };
    static TIMERS: [Running; 1] = [(Timer::State, 2, Due::At(5))];
    timers_are(rt, &START, &ROWS, &END, &TIMERS);
}

/// The event of a repeated state is postponed, as its own list says.
#[test]
fn the_event_of_a_repeated_state_is_postponed(rt: HostRuntime) {
    static START: Begin<Table> = Begin {
        module: Table { number: 60 },
        ..BEGIN
    };
    static ROWS: [Row; 3] = [
        Tells(Cast(36), Posted(1)),
        Turns(0, 1, Kind::Cast, 0, 0, &[Enters, PutsOff]),
        Tells(Turn(0), Idle),
    ];
    static END: Seen = Seen {
        waiting: 1,
        ..AT_REST
    };
    answers_are(rt, &START, &ROWS, &END);
}

/// The enter call of the module tells from which state it was entered.
#[test]
fn a_new_state_is_entered_from_the_old_one(rt: HostRuntime) {
    static START: Begin<Table> = Begin {
        module: Table { number: 61 },
        ..BEGIN
    };
    static ROWS: [Row; 4] = [
        Tells(Cast(3), Posted(1)),
        Turns(0, 1, Kind::Cast, 0, 1, &[Enters]),
        Tells(Cast(9), Posted(2)),
        Turns(0, 2, Kind::Cast, 1, 0, &[Enters]),
    ];
    static BETWEEN: Seen = Seen {
        state: 1,
        held: 31,
        ..AT_REST
    };
    static END: Seen = Seen {
        held: 32,
        ..AT_REST
    };
    let rt = Host::new(rt);
    rows_agree(&rt, rt.alloc(), &START, &ROWS[..2], &BETWEEN);
    rows_agree(&rt, rt.alloc(), &START, &ROWS, &END);
    rt.end();
}

/// The start's enter call is handed the data of `init`, the turn's those of `handle`.
#[test]
fn an_enter_call_is_handed_the_new_data(rt: HostRuntime) {
    static START: Begin<Table> = Begin {
        module: Table { number: 64 },
        ..BEGIN
    };
    static ROWS: [Row; 2] = [
        Tells(Cast(34), Posted(1)),
        Turns(0, 1, Kind::Cast, 0, 2, &[Enters]),
    ];
    static BEGUN: Seen = Seen {
        held: 41,
        ..AT_REST
    };
    static END: Seen = Seen {
        state: 2,
        held: 40,
        ..AT_REST
    };
    let rt = Host::new(rt);
    rows_agree(&rt, rt.alloc(), &START, &[], &BEGUN);
    rows_agree(&rt, rt.alloc(), &START, &ROWS, &END);
    rt.end();
}

/// The actions of both calls count as one list: of a timer the later request decides, in the place where it
/// stands. The state time-out of the start is cancelled, for the state changes.
#[test]
fn the_actions_of_an_enter_call_follow_those_of_the_event(rt: HostRuntime) {
    static START: Begin<Table> = Begin {
        module: Table { number: 62 },
        set: &[
            (Timer::State, Decision::Set(After(20))),
            (Named(1), Decision::Set(After(9))),
        ],
        ..BEGIN
    };
    static ROWS: [Row; 2] = [
        Tells(Cast(35), Posted(3)),
        Turns(
            4,
            3,
            Kind::Cast,
            0,
            1,
            &[
                Enters,
                PutsOff,
                Sets(Named(2), After(5)),
                Sets(Timer::State, After(20)),
                Sets(Named(1), After(9)),
            ],
        ),
    ];
    static END: Seen = Seen {
        is_ready: true,
        has_event: true,
        state: 1,
        latest: 4,
        waiting: 1,
        ..AT_REST
    };
    static TIMERS: [Running; 3] = [
        (Named(2), 4, Due::At(9)),
        (Timer::State, 5, Due::At(24)),
        (Named(1), 6, Due::At(13)),
    ];
    timers_are(rt, &START, &ROWS, &END, &TIMERS);
}

/// Memory is wanted inside `enter`, after `handle` has answered, and for what both ask for.
#[test]
fn memory_is_wanted_inside_an_enter_call(rt: HostRuntime) {
    static START: Begin<Table> = Begin {
        module: Table { number: 63 },
        ..BEGIN
    };
    static ROWS: [Row; 5] = [
        Tells(Cast(10), Posted(1)),
        Tells(Cast(11), Posted(2)),
        Turns(0, 1, Kind::Cast, 0, 0, &[PutsOff]),
        Turns(
            0,
            2,
            Kind::Cast,
            0,
            1,
            &[Enters, PutsOff, Inserts(3), Inserts(4)],
        ),
        Turns(0, 3, Kind::Internal, 1, 1, &[]),
    ];
    static END: Seen = Seen {
        is_ready: true,
        has_event: true,
        state: 1,
        waiting: 3,
        ..AT_REST
    };
    answers_are(rt, &START, &ROWS, &END);
}

/// Looks that a machine has ended at its start, for the reason 4 and with the word 7.
fn has_ended<T: Machine>(rt: &Host<impl Abort>, mut machine: T) {
    static ROWS: [Row; 2] = [
        Tells(Cast(6), NotPosted(Refusal::Stopped(4), 6)),
        Tells(Turn(5), NotTurned(Refusal::Stopped(4))),
    ];
    static END: Seen = Seen {
        ended: Some((4, 7)),
        ..AT_REST
    };
    sees(rt, &machine.see(), &END);
    same(
        rt,
        "no time-out runs",
        &timers_of(rt, &machine),
        &Few::none(),
    );
    play(rt, &mut machine, &ROWS);
    drop(machine);
}

/// Looks at a start, the first enter call of which stops: there is a machine, which has ended and sent nothing.
pub fn stops_at_its_start(rt: &Host<impl Abort>, alloc: Global, begin: &Begin<Table>) {
    let (core, report) = running(rt, alloc, begin);
    reports(rt, &report, &started(0).entered().ended(4, 7));
    drop(report);
    has_ended(rt, core);
}

/// The first enter call stops: there is a machine, and it has ended.
#[test]
fn the_first_enter_call_stops(rt: HostRuntime) {
    static START: Begin<Table> = Begin {
        module: Table { number: 70 },
        ..BEGIN
    };
    let rt = Host::new(rt);
    stops_at_its_start(&rt, rt.alloc(), &START);
    rt.end();
}

/// The first event is postponed, the second leads to the state 2, the enter call of which stops the machine, and the
/// third waits.
const FIRST: Row = Tells(Cast(10), Posted(1));

const SECOND: Row = Tells(Cast(34), Posted(2));

const THIRD: Row = Tells(Cast(0), Posted(3));

const PUT_OFF: Row = Turns(5, 1, Kind::Cast, 0, 0, &[PutsOff]);

/// Behind the end a turn is refused.
const TURN: Row = Tells(Turn(8), NotTurned(Refusal::Stopped(4)));

/// What `terminate` is handed is the new state, with the data of `handle` or those of the enter call. The data are the
/// machine's word.
#[test]
fn an_enter_call_stops(rt: HostRuntime) {
    static WITH_DATA: Begin<Table> = Begin {
        module: Table { number: 71 },
        ..BEGIN
    };
    static WITH_8: [Row; 6] = [
        FIRST,
        SECOND,
        THIRD,
        PUT_OFF,
        Turns(6, 2, Kind::Cast, 0, 2, &[Enters, Ends(4, 8)]),
        TURN,
    ];
    static END_WITH_8: Seen = Seen {
        state: 2,
        held: 8,
        latest: 6,
        ended: Some((4, 8)),
        ..AT_REST
    };
    static WITHOUT_DATA: Begin<Table> = Begin {
        module: Table { number: 72 },
        ..BEGIN
    };
    static WITH_9: [Row; 6] = [
        FIRST,
        SECOND,
        THIRD,
        PUT_OFF,
        Turns(6, 2, Kind::Cast, 0, 2, &[Enters, Ends(4, 9)]),
        TURN,
    ];
    static END_WITH_9: Seen = Seen {
        state: 2,
        held: 9,
        latest: 6,
        ended: Some((4, 9)),
        ..AT_REST
    };
    let rt = Host::new(rt);
    rows_agree(&rt, rt.alloc(), &WITH_DATA, &WITH_8, &END_WITH_8);
    rows_agree(&rt, rt.alloc(), &WITHOUT_DATA, &WITH_9, &END_WITH_9);
    rt.end();
}
