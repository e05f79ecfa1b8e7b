//! What comes of a start, and copies by a module.
use super::begin::{Begin, start};
use super::few::Few;
use super::host::{Host, got, holds, same};
use super::machine::{Machine, timers_of};
use super::seen::{Running, Seen, sees};
use super::shown::Shown::{NotPosted, Stopped, Ticked};
use super::table::Table;
use super::table_machine::{AT_REST, BEGIN};
use super::tested::does;
use super::told::Told::{Cast, Stop, Tick};
use st_core::{Core, Decision, Due, Module, Reason, Refusal, Refused, Report, Start, Time, Timer};
use std::alloc::Global;
use std::fmt::Debug;
use std::process::Abort;

/// Why a start led to no machine: a reason, or none where it was ignored. Where it led to one, that is the error, with
/// its report: each part is named, for a part that is let go unnamed makes the proof dear.
fn without_machine<M: Module>(
    start: Start<M>,
) -> Result<Option<Reason>, (Core<M>, Report<M::State>)> {
    match start {
        Start::Ignored => Ok(None),
        Start::Stopped(reason) => Ok(Some(reason)),
        Start::Running(core, report) => Err((core, report)),
    }
}

/// Why a start was refused. Its module comes back.
fn refusal_of<M: Module + Eq + Debug>(rt: &impl Abort, refused: Refused<M>, module: &M) -> Refusal {
    same(rt, "the module comes back", &refused.value, module);
    let refusal = refused.refusal;
    drop(refused);
    refusal
}

/// Looks at what comes of a start that leads to no machine: it is ignored, stops for a reason, or is refused, and then
/// its module comes back.
fn comes_to<M: Module<Arg = u32> + Copy + Eq + Debug>(
    rt: &Host<impl Abort>,
    alloc: Global,
    begin: &Begin<M>,
    wanted: &Result<Option<Reason>, Refusal>,
) {
    let found = match start(rt, alloc, begin) {
        Ok(start) => Ok(got(rt, "no machine runs", without_machine(start))),
        Err(refused) => Err(refusal_of(rt, refused, &begin.module)),
    };
    same(rt, "what comes of the start", &found, wanted);
}

/// A start with an argument, at a moment, and what comes of it.
type Starts = (u32, u64, Result<Option<Reason>, Refusal>);

/// Looks at what comes of the starts of rows, where this is the number of the first event.
fn each_comes_to(rt: &Host<impl Abort>, alloc: Global, first: Option<u64>, rows: &[Starts]) {
    for (arg, now, wanted) in rows {
        let begin = Begin {
            arg: *arg,
            now: *now,
            first,
            ..BEGIN
        };
        comes_to(rt, alloc, &begin, wanted);
    }
}

#[test]
fn a_start_is_ignored_stopped_or_refused(rt: HostRuntime) {
    static ROWS: [Starts; 4] = [
        (1, 0, Ok(None)),
        (4, 9_223_372_036_854_775_807, Ok(Some(4))),
        (0, 9_223_372_036_854_775_808, Err(Refusal::Moment)),
        (4, 9_223_372_036_854_775_808, Err(Refusal::Moment)),
    ];
    let rt = Host::new(rt);
    each_comes_to(&rt, rt.alloc(), None, &ROWS);
    each_comes_to(&rt, rt.alloc(), Some(7), &ROWS);
    rt.end();
}

#[test]
fn copies_are_equal(rt: HostRuntime) {
    let rt = Host::new(rt);
    let table = Table { number: 50 };
    let content = table.copy_content(rt.alloc(), &3);
    holds(&rt, "the copy of a content is equal", content == Ok(3));
    let held = table.copy_data(rt.alloc(), &7);
    holds(&rt, "the copy of data is equal", held == Ok(7));
    rt.end();
}

/// Looks at a machine that has no number left, which is seen so before a post and after it.
fn refuses_posts<T: Machine>(
    rt: &Host<impl Abort>,
    alloc: Global,
    begin: &Begin<Table>,
    wanted: &Seen,
) {
    let mut machine = T::begun(rt, alloc, begin);
    sees(rt, &machine.see(), wanted);
    let refused = NotPosted(Refusal::Exhausted, 6);
    does(rt, &mut machine, Cast(6), &refused);
    sees(rt, &machine.see(), wanted);
    drop(machine);
}

/// A start that inserts two events needs two numbers. Its moment is looked at first.
#[test]
fn inserts_of_a_start_need_numbers(rt: HostRuntime) {
    static START: Begin<Table> = Begin {
        arg: 3,
        now: 12,
        first: Some(9_223_372_036_854_775_806),
        inserted: &[9_223_372_036_854_775_806, 9_223_372_036_854_775_807],
        ..BEGIN
    };
    static BEGUN: Seen = Seen {
        is_ready: true,
        has_event: true,
        latest: 12,
        waiting: 2,
        ..AT_REST
    };
    static ROWS: [Starts; 2] = [
        (3, 12, Err(Refusal::Exhausted)),
        (3, 9_223_372_036_854_775_808, Err(Refusal::Moment)),
    ];
    let rt = Host::new(rt);
    refuses_posts::<Core<Table>>(&rt, rt.alloc(), &START, &BEGUN);
    each_comes_to(&rt, rt.alloc(), Some(9_223_372_036_854_775_807), &ROWS);
    rt.end();
}

/// Looks when the next time-out of a machine is due, if there is one.
fn is_due_next<T: Machine>(rt: &Host<impl Abort>, machine: &T, wanted: Option<u64>) {
    same(rt, "the next that is due", &machine.next_due(), &wanted);
}

/// Looks at a machine whose start set these time-outs.
fn runs_time_outs<T: Machine>(
    rt: &Host<impl Abort>,
    alloc: Global,
    begin: &Begin<Table>,
    timers: &[Running],
) {
    static BEGUN: Seen = Seen {
        latest: 12,
        ..AT_REST
    };
    let mut machine = T::begun(rt, alloc, begin);
    sees(rt, &machine.see(), &BEGUN);
    let running = timers_of(rt, &machine);
    same(rt, "the time-outs that run", &running, &Few::of(timers));
    time_outs_are_due(rt, &mut machine);
    drop(machine);
}

/// Looks when the next time-out is due: the earliest is due first, then the next ones, and a stopped machine has none.
fn time_outs_are_due<T: Machine>(rt: &Host<impl Abort>, machine: &mut T) {
    is_due_next(rt, machine, Some(22));
    does(rt, machine, Tick(22), &Ticked(1));
    is_due_next(rt, machine, Some(32));
    does(rt, machine, Stop(9), &Stopped(7));
    is_due_next(rt, machine, None);
}

/// A start that sets three timers needs three numbers.
#[test]
fn time_outs_of_a_start_need_numbers(rt: HostRuntime) {
    static ROWS: [Starts; 1] = [(7, 12, Err(Refusal::Exhausted))];
    static START: Begin<Table> = Begin {
        arg: 7,
        now: 12,
        first: Some(9_223_372_036_854_775_805),
        set: &[
            (Timer::Named(1), Decision::Set(Time::After(20))),
            (Timer::Named(2), Decision::Set(Time::After(10))),
            (Timer::Named(3), Decision::Set(Time::After(20))),
        ],
        ..BEGIN
    };
    static TIMERS: [Running; 3] = [
        (Timer::Named(1), 9_223_372_036_854_775_805, Due::At(32)),
        (Timer::Named(2), 9_223_372_036_854_775_806, Due::At(22)),
        (Timer::Named(3), 9_223_372_036_854_775_807, Due::At(32)),
    ];
    let rt = Host::new(rt);
    each_comes_to(&rt, rt.alloc(), Some(9_223_372_036_854_775_806), &ROWS);
    runs_time_outs::<Core<Table>>(&rt, rt.alloc(), &START, &TIMERS);
    rt.end();
}
