//! How a machine of a test starts.
use super::answers::started;
use super::few::Few;
use super::host::{Host, got, holds, same};
use super::machine::{kept_in, see};
use super::seen::{Kept, Seen, keeps, sees};
use super::shown::{Did, reports};
use super::told::ID;
use st_core::{
    Core, Decision, Module, Refusal, Refused, Report, Start, Time, Timer, a_machine_is_lawful,
    a_run_is_accounted, a_run_keeps_machines_lawful, a_start_is_lawful,
};
use std::alloc::Global;
use std::fmt::Debug;
use std::process::Abort;

/// How a machine starts, the numbers of the events that its `init` inserts, what it asks of timers, and the numbers of
/// the messages that it sends.
/// The number of the first event may be left out, and then it is 1.
#[derive(Drop)]
pub struct Begin<M> {
    pub module: M,
    pub arg: u32,
    pub now: u64,
    pub first: Option<u64>,
    pub inserted: &'static [u64],
    pub set: &'static [(Timer, Decision)],
    pub sent: &'static [u64],
}

/// Makes the call of a start whose first event has this number.
fn call_start_from<M: Module<Arg = u32> + Copy>(
    rt: &Host<impl Abort>,
    alloc: Global,
    begin: &Begin<M>,
    first: u64,
) -> Result<Start<M>, Refused<M>> {
    holds(rt, "the first number is 1 or more", first >= 1);
    holds(rt, "the first number can be given", first < 1 << 63);
    Core::start_from(alloc, begin.module, ID, &begin.arg, begin.now, first)
}

/// Makes the call of a start.
fn call_start<M: Module<Arg = u32> + Copy>(
    rt: &Host<impl Abort>,
    alloc: Global,
    begin: &Begin<M>,
) -> Result<Start<M>, Refused<M>> {
    match begin.first {
        None => Core::start(alloc, begin.module, ID, &begin.arg, begin.now),
        Some(first) => call_start_from(rt, alloc, begin, first),
    }
}

/// Makes the call of a start again where it found no memory: the module came back.
fn start_again<M: Module<Arg = u32> + Copy + Eq + Debug>(
    rt: &Host<impl Abort>,
    alloc: Global,
    begin: &Begin<M>,
    refused: Refused<M>,
) -> Result<Start<M>, Refused<M>> {
    if refused.refusal != Refusal::NoMemory {
        return Err(refused);
    }
    same(rt, "the module comes back", &refused.value, &begin.module);
    drop(refused);
    // A start that is refused for its moment takes no memory.
    holds(rt, "the moment is in range", begin.now < 1 << 63);
    rt.retry();
    call_start(rt, alloc, begin)
}

/// Starts a machine. Where it finds no memory, the module comes back, and the same call is made again.
pub fn start<M: Module<Arg = u32> + Copy + Eq + Debug>(
    rt: &Host<impl Abort>,
    alloc: Global,
    begin: &Begin<M>,
) -> Result<Start<M>, Refused<M>> {
    match call_start(rt, alloc, begin) {
        Ok(start) => Ok(start),
        Err(refused) => start_again(rt, alloc, begin, refused),
    }
}

/// What a start does that leads to a machine in this state.
fn wanted_of<M: Module>(begin: &Begin<M>, state: u32) -> Did {
    let did = Did {
        inserted: Few::of(begin.inserted),
        set: Few::of(begin.set),
        sent: Few::of(begin.sent),
        ..started(state)
    };
    if begin.module.enters() {
        did.entered()
    } else {
        did
    }
}

/// The machine that a start led to, and its report; or why there is none.
fn into_running<M: Module>(start: Start<M>) -> Result<(Core<M>, Report<M::State>), &'static str> {
    match start {
        Start::Running(core, report) => Ok((core, report)),
        Start::Ignored => Err("the start was ignored"),
        Start::Stopped(_) => Err("the start stopped"),
    }
}

/// The machine that a start leads to, and its report.
pub fn running<M: Module<Arg = u32> + Copy + Eq + Debug>(
    rt: &Host<impl Abort>,
    alloc: Global,
    begin: &Begin<M>,
) -> (Core<M>, Report<M::State>) {
    let start = got(rt, "the start is refused", start(rt, alloc, begin));
    got(rt, "a machine runs", into_running(start))
}

/// Says whether one of these, asked for by a start, makes a time-out that is due at once. Nothing runs yet, so an update
/// does.
fn comes_at_once(set: &[(Timer, Decision)]) -> bool {
    for (_, decision) in set {
        if matches!(decision, Decision::Update | Decision::Set(Time::After(0))) {
            return true;
        }
    }
    false
}

/// Looks that a machine that is seen so has only started.
fn sees_begun<M>(rt: &Host<impl Abort>, seen: &Seen, begin: &Begin<M>) {
    let has_event = !begin.inserted.is_empty() || comes_at_once(begin.set);
    let has_message = !begin.sent.is_empty();
    let wanted = Seen {
        is_ready: has_event || has_message,
        has_event,
        has_message,
        state: seen.state,
        held: seen.held,
        latest: begin.now,
        waiting: begin.inserted.len(),
        ended: None,
    };
    sees(rt, seen, &wanted);
}

/// Looks that a machine has only started.
fn has_begun<M: Module<State = u32, Data = u32, Content = u32>>(
    rt: &Host<impl Abort>,
    core: &Core<M>,
    begin: &Begin<M>,
) {
    sees_begun(rt, &see(core), begin);
    keeps(rt, &kept_in(core), &Kept::none());
    same(rt, "the id", &core.id(), &ID);
}

/// The laws hold of a machine and its module.
fn is_lawful<M: Module>(core: &Core<M>, module: &M) {
    a_start_is_lawful(module);
    a_run_keeps_machines_lawful(module);
    a_run_is_accounted(module);
    a_machine_is_lawful(core);
}

/// Looks at a machine that has started, and that its report says what it did.
fn is_begun<M: Module<State = u32, Data = u32, Content = u32>>(
    rt: &Host<impl Abort>,
    core: &Core<M>,
    report: &Report<u32>,
    begin: &Begin<M>,
) {
    reports(rt, report, &wanted_of(begin, core.state()));
    is_lawful(core, &begin.module);
    has_begun(rt, core, begin);
}

/// A machine that has started, whose report says what it did, and that is looked at.
pub fn begun<M: Module<State = u32, Data = u32, Content = u32, Arg = u32> + Copy + Eq + Debug>(
    rt: &Host<impl Abort>,
    alloc: Global,
    begin: &Begin<M>,
) -> Core<M> {
    let (core, report) = running(rt, alloc, begin);
    is_begun(rt, &core, &report, begin);
    drop(report);
    core
}
