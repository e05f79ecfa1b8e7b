//! Clerks are hired, told, asked, and refuse what is too much.
use super::act::Act;
use super::act::Act::{AwaitsServed, Counts, Hires, HiresEach, IsNamed, Plays, ShutsDown};
use super::hiring::Hiring;
use super::house::serves;
use super::ids::{FIRST, NOBODY};
use super::left::{ANYTHING, Left};
use super::opening::{OPTIONS, Opening, PLAIN};
use super::part::Part::At;
use super::row::Row;
use super::row::Row::{Asks, AwaitsKept, AwaitsSum, Says, Tells, WasTold};
use super::said::Said;
use super::way::Way;
use crate::Order;
use st_service::{Journals, Options, Refusal};

/// A clerk is hired.
const HIRED: Act = HiresEach(1, &[]);

/// He is told ten numbers, and asked for the sum. He is told by a message too, and asked once more, and nobody waits for that
/// reply.
const ADDS: &[Row] = &[
    Tells(Order::Add(1)),
    Tells(Order::Add(2)),
    Tells(Order::Add(3)),
    Tells(Order::Add(4)),
    Tells(Order::Add(5)),
    Tells(Order::Add(6)),
    Tells(Order::Add(7)),
    Tells(Order::Add(8)),
    Tells(Order::Add(9)),
    Tells(Order::Add(10)),
    Asks(55),
    Says(Way::Info, Order::Add(1), Said::Told),
    Says(Way::Request, Order::Ask, Said::Told),
    Asks(56),
];

/// Anna is hired as the first.
const ANNA: Act = Hires(Some("anna"), NOBODY, Hiring::Runs(FIRST));

/// She is known by her name.
const ANNAS_NAME: Act = IsNamed("anna", FIRST);

/// Nobody else can take the name.
const NOT_ANNA: Act = Hires(
    Some("anna"),
    NOBODY,
    Hiring::Refused(Refusal::AlreadyStarted(FIRST)),
);

/// One clerk was stopped, at whom nothing waited.
const ONE: Act = ShutsDown(
    7,
    Left {
        stopped: (1, 1),
        events: (0, 0),
        ..ANYTHING
    },
    None,
);

#[test]
fn a_clerk_is_told_and_asked(rt: HostRuntime) {
    static ACTS: [Act; 7] = [
        ANNA,
        Plays(At(0, ADDS)),
        Plays(At(0, &[AwaitsKept(14, 0, 13)])),
        ANNAS_NAME,
        Counts(1),
        NOT_ANNA,
        ONE,
    ];
    serves(rt, &PLAIN, &ACTS);
}

#[test]
fn a_clerk_without_a_journal_is_told_and_asked(rt: HostRuntime) {
    static OPENING: Opening = Opening {
        options: Options {
            journals: Journals::None,
            ..OPTIONS
        },
        reports: None,
    };
    static ACTS: [Act; 7] = [
        ANNA,
        Plays(At(0, ADDS)),
        Plays(At(0, &[AwaitsKept(14, 0, 0)])),
        ANNAS_NAME,
        Counts(1),
        NOT_ANNA,
        ONE,
    ];
    serves(rt, &OPENING, &ACTS);
}

#[test]
fn a_clerk_with_his_whole_journal_is_told_and_asked(rt: HostRuntime) {
    static OPENING: Opening = Opening {
        options: Options {
            journals: Journals::All,
            ..OPTIONS
        },
        reports: None,
    };
    static ACTS: [Act; 7] = [
        ANNA,
        Plays(At(0, ADDS)),
        Plays(At(0, &[AwaitsKept(14, 14, 14)])),
        ANNAS_NAME,
        Counts(1),
        NOT_ANNA,
        ONE,
    ];
    serves(rt, &OPENING, &ACTS);
}

/// A clerk is asked ten times, and nothing was added yet.
const TEN_TIMES: &[Row] = &[
    Asks(0),
    Asks(0),
    Asks(0),
    Asks(0),
    Asks(0),
    Asks(0),
    Asks(0),
    Asks(0),
    Asks(0),
    Asks(0),
];

/// A clerk at rest is called a hundred times, and no worker has a turn.
#[test]
fn who_calls_a_clerk_at_rest_makes_his_turn(rt: HostRuntime) {
    static ACTS: [Act; 12] = [
        HIRED,
        Plays(At(0, TEN_TIMES)),
        Plays(At(0, TEN_TIMES)),
        Plays(At(0, TEN_TIMES)),
        Plays(At(0, TEN_TIMES)),
        Plays(At(0, TEN_TIMES)),
        Plays(At(0, TEN_TIMES)),
        Plays(At(0, TEN_TIMES)),
        Plays(At(0, TEN_TIMES)),
        Plays(At(0, TEN_TIMES)),
        Plays(At(0, TEN_TIMES)),
        ShutsDown(
            7,
            Left {
                turns: (0, 0),
                ..ANYTHING
            },
            None,
        ),
    ];
    serves(rt, &PLAIN, &ACTS);
}

/// A call leaves an event, which a worker handles.
#[test]
fn what_a_call_leaves_is_the_workers(rt: HostRuntime) {
    static ACTS: [Act; 4] = [
        HIRED,
        Plays(At(
            0,
            &[Says(Way::Call, Order::Take(5), Said::Reply(Order::Sum(0)))],
        )),
        AwaitsServed(FIRST),
        Plays(At(0, &[Asks(5)])),
    ];
    serves(rt, &PLAIN, &ACTS);
}

/// A clerk sets a time-out, which comes.
#[test]
fn a_time_out_comes_by_itself(rt: HostRuntime) {
    static ACTS: [Act; 2] = [HIRED, Plays(At(0, &[Tells(Order::Later(2)), AwaitsSum(1)]))];
    serves(rt, &PLAIN, &ACTS);
}

/// A clerk who has shut his window has three orders wait, and refuses a fourth; nor is he asked.
const REFUSES_A_FOURTH: &[Row] = &[
    Tells(Order::Shut),
    Asks(0),
    Tells(Order::Add(5)),
    Tells(Order::Add(5)),
    Tells(Order::Add(5)),
    Says(Way::Cast, Order::Add(6), Said::Busy(Order::Add(6))),
    Says(Way::Call, Order::Ask, Said::Busy(Order::Ask)),
    WasTold(5),
];

/// A clerk at whom as many events wait as may refuses one more. A message from another machine comes in all the same, and he
/// takes more once he has added what waited.
#[test]
fn a_busy_clerk_refuses_and_takes_again(rt: HostRuntime) {
    static FEW: Opening = Opening {
        options: Options {
            waiting: 3,
            ..OPTIONS
        },
        reports: None,
    };
    static ACTS: [Act; 5] = [
        HiresEach(2, &[]),
        Plays(At(0, REFUSES_A_FOURTH)),
        Plays(At(1, &[Tells(Order::Tell(FIRST))])),
        AwaitsServed(FIRST),
        Plays(At(0, &[Asks(15), Tells(Order::Add(6)), Asks(21)])),
    ];
    serves(rt, &FEW, &ACTS);
}
