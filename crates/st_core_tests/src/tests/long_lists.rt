//! Lists of five actions and more, of all kinds, and of five replies: they want memory of their own.
use super::begin::Begin;
use super::row::More::{Ends, Enters, Inserts, PutsOff, Replies, Sets};
use super::row::Row;
use super::row::Row::{Tells, Turns};
use super::seen::{Running, Seen};
use super::shown::Shown::{Collected, Posted};
use super::table::Table;
use super::table_machine::{AT_REST, BEGIN, PLAIN, answers_are, timers_are};
use super::told::Told::{Call, Collect};
use super::told::{FIRST, SECOND, THIRD};
use st_core::Time::After;
use st_core::Timer::Named;
use st_core::{Decision, Due, Kind, Timer};

/// A change of the state, and then the same event again, which is no change: its requests have their replies, it waits,
/// and its timers are set anew.
#[test]
fn a_handle_asks_for_all_kinds(rt: HostRuntime) {
    static ROWS: [Row; 8] = [
        Tells(Call(41), Posted(1)),
        Tells(Call(0), Posted(2)),
        Turns(
            3,
            1,
            Kind::Call(FIRST),
            0,
            1,
            &[
                PutsOff,
                Replies(SECOND),
                Replies(FIRST),
                Inserts(3),
                Inserts(4),
                Sets(Timer::State, After(10)),
                Sets(Named(1), After(7)),
            ],
        ),
        Turns(3, 3, Kind::Internal, 1, 1, &[]),
        Turns(3, 4, Kind::Cast, 1, 1, &[]),
        Turns(
            4,
            1,
            Kind::Call(FIRST),
            1,
            1,
            &[
                PutsOff,
                Inserts(7),
                Inserts(8),
                Sets(Timer::State, After(10)),
                Sets(Named(1), After(7)),
            ],
        ),
        Tells(Collect(FIRST), Collected(55)),
        Tells(Collect(SECOND), Collected(54)),
    ];
    static END: Seen = Seen {
        is_ready: true,
        has_event: true,
        state: 1,
        latest: 4,
        waiting: 4,
        ..AT_REST
    };
    static TIMERS: [Running; 2] = [(Timer::State, 9, Due::At(14)), (Named(1), 10, Due::At(11))];
    timers_are(rt, &PLAIN, &ROWS, &END, &TIMERS);
}

/// The six actions of the enter call stand behind the nine of `handle`, as if in one list.
#[test]
fn an_enter_call_asks_for_all_kinds(rt: HostRuntime) {
    static START: Begin<Table> = Begin {
        module: Table { number: 66 },
        ..BEGIN
    };
    static ROWS: [Row; 7] = [
        Tells(Call(41), Posted(1)),
        Tells(Call(0), Posted(2)),
        Tells(Call(0), Posted(3)),
        Turns(
            3,
            1,
            Kind::Call(FIRST),
            0,
            1,
            &[
                Enters,
                PutsOff,
                Replies(SECOND),
                Replies(FIRST),
                Replies(THIRD),
                Inserts(4),
                Inserts(5),
                Sets(Named(1), After(7)),
                Sets(Timer::State, After(20)),
                Sets(Named(2), After(9)),
            ],
        ),
        Tells(Collect(FIRST), Collected(55)),
        Tells(Collect(SECOND), Collected(54)),
        Tells(Collect(THIRD), Collected(63)),
    ];
    static END: Seen = Seen {
        is_ready: true,
        has_event: true,
        state: 1,
        latest: 3,
        waiting: 5,
        ..AT_REST
    };
    static TIMERS: [Running; 3] = [
        (Named(1), 6, Due::At(10)),
        (Timer::State, 7, Due::At(23)),
        (Named(2), 8, Due::At(12)),
    ];
    timers_are(rt, &START, &ROWS, &END, &TIMERS);
}

/// Of a start the replies reach no request, and nothing is postponed.
#[test]
fn a_start_asks_for_all_kinds(rt: HostRuntime) {
    static START: Begin<Table> = Begin {
        arg: 9,
        now: 12,
        inserted: &[1, 2],
        set: &[
            (Timer::State, Decision::Set(After(10))),
            (Named(1), Decision::Set(After(7))),
        ],
        ..BEGIN
    };
    static ROWS: [Row; 2] = [
        Turns(12, 1, Kind::Internal, 0, 0, &[]),
        Turns(12, 2, Kind::Cast, 0, 0, &[]),
    ];
    static END: Seen = Seen {
        latest: 12,
        ..AT_REST
    };
    static TIMERS: [Running; 2] = [(Timer::State, 3, Due::At(22)), (Named(1), 4, Due::At(19))];
    timers_are(rt, &START, &ROWS, &END, &TIMERS);
}

/// The three actions of the first enter call stand behind the nine of `init`.
#[test]
fn an_entered_start_asks_for_all_kinds(rt: HostRuntime) {
    static START: Begin<Table> = Begin {
        module: Table { number: 62 },
        arg: 9,
        now: 12,
        inserted: &[1, 2],
        set: &[
            (Timer::State, Decision::Set(After(20))),
            (Named(1), Decision::Set(After(9))),
        ],
        ..BEGIN
    };
    static END: Seen = Seen {
        is_ready: true,
        has_event: true,
        latest: 12,
        waiting: 2,
        ..AT_REST
    };
    static TIMERS: [Running; 2] = [(Timer::State, 3, Due::At(32)), (Named(1), 4, Due::At(21))];
    timers_are(rt, &START, &[], &END, &TIMERS);
}

/// Of the five replies three are taken: one goes to another machine's request, one to a request that has its reply.
#[test]
fn a_callback_stops_with_five_replies(rt: HostRuntime) {
    static ROWS: [Row; 7] = [
        Tells(Call(42), Posted(1)),
        Tells(Call(0), Posted(2)),
        Tells(Call(0), Posted(3)),
        Turns(
            5,
            1,
            Kind::Call(FIRST),
            0,
            0,
            &[Ends(9, 7), Replies(THIRD), Replies(FIRST), Replies(SECOND)],
        ),
        Tells(Collect(FIRST), Collected(40)),
        Tells(Collect(SECOND), Collected(51)),
        Tells(Collect(THIRD), Collected(57)),
    ];
    static END: Seen = Seen {
        latest: 5,
        ended: Some((9, 7)),
        ..AT_REST
    };
    answers_are(rt, &PLAIN, &ROWS, &END);
}

/// The replies of `handle` are sent and then those of the enter call. What else `handle` asked for is not done.
#[test]
fn an_enter_call_stops_with_five_replies(rt: HostRuntime) {
    static START: Begin<Table> = Begin {
        module: Table { number: 73 },
        ..BEGIN
    };
    static ROWS: [Row; 7] = [
        Tells(Call(41), Posted(1)),
        Tells(Call(0), Posted(2)),
        Tells(Call(0), Posted(3)),
        Turns(
            5,
            1,
            Kind::Call(FIRST),
            0,
            1,
            &[
                Enters,
                Ends(4, 8),
                Replies(SECOND),
                Replies(FIRST),
                Replies(THIRD),
            ],
        ),
        Tells(Collect(FIRST), Collected(55)),
        Tells(Collect(SECOND), Collected(54)),
        Tells(Collect(THIRD), Collected(57)),
    ];
    static END: Seen = Seen {
        state: 1,
        held: 8,
        latest: 5,
        ended: Some((4, 8)),
        ..AT_REST
    };
    answers_are(rt, &START, &ROWS, &END);
}
