//! A machine as a test sees it: what it is told, and what can be read of it.
use super::begin::{Begin, begun};
use super::few::Few;
use super::host::{Host, got, holds};
use super::seen::{Kept, Running, Seen, Whole};
use super::shown::{Shown, Taken, read, read_message};
use super::table::Table;
use super::told::{Told, tag};
use st_core::{
    Answer, Command, Core, Entry, Module, PlainList, Refusal, Refused, Snapshot, Tag, Turns,
};
use std::alloc::Global;
use std::process::Abort;

/// A machine. What is done with any machine is proved with no contract of the engine at hand, which makes
/// these proofs short.
pub trait Machine: Drop {
    /// One that has started, and is looked at.
    fn begun(rt: &Host<impl Abort>, alloc: Global, begin: &Begin<Table>) -> Self;

    /// Makes the call of one command, and shows its answer.
    fn call(&mut self, told: Told) -> Shown;

    /// Makes the call of a run.
    fn call_run(
        &mut self,
        commands: Vec<Command<u32>>,
    ) -> Result<Vec<Answer<u32, u32>>, Refused<Vec<Command<u32>>>>;

    /// What can be read of it but its replies and time-outs.
    fn see(&self) -> Seen;

    /// The replies that are kept.
    fn kept(&self) -> Kept;

    /// The running time-outs, or that there is no memory for them.
    fn try_timers(&self) -> Result<Few<Running>, Refusal>;

    /// The moment at which the next time-out is due.
    fn next_due(&self) -> Option<u64>;

    /// The first message that was not taken out yet.
    fn first_message(&self) -> Option<Taken>;

    /// The tag of the request that a post with this number opens.
    fn tag_of(&self, request: u64) -> Tag;

    /// Makes the call of turns until there is nothing to handle.
    fn call_turns(&mut self, now: u64, at_most: u64) -> Turns;

    /// Its snapshot, or that there is no memory for it.
    fn try_snapshot(&mut self) -> Result<Snapshot<Table>, Refusal>;
}

/// Makes the call of one command.
fn call<M: Module<State = u32, Content = u32>>(core: &mut Core<M>, told: Told) -> Answer<u32, u32> {
    match told {
        Told::Cast(content) => Answer::Post(core.post(Entry::Cast, content)),
        Told::Info(content) => Answer::Post(core.post(Entry::Info, content)),
        Told::Call(content) => Answer::Post(core.post(Entry::Call, content)),
        Told::Tick(now) => Answer::Tick(core.tick_to(now)),
        Told::Turn(now) => Answer::Turn(core.turn(now)),
        Told::Reply(tag, content) => Answer::Reply(core.reply(tag, content)),
        Told::Collect(tag) => Answer::Collect(core.collect(tag)),
        Told::Stop(reason) => Answer::Stop(core.stop(reason)),
        Told::TakeOut => Answer::TakeOut(core.take_out()),
    }
}

/// What can be read of a machine but its replies and time-outs.
pub fn see<M: Module<State = u32, Data = u32>>(core: &Core<M>) -> Seen {
    Seen {
        is_ready: core.is_ready(),
        has_event: core.has_event(),
        has_message: core.has_message(),
        state: core.state(),
        held: *core.data(),
        latest: core.latest(),
        waiting: core.waiting(),
        ended: core.ended(),
    }
}

/// The replies that are kept.
pub fn kept_in<M: Module<Content = u32>>(core: &Core<M>) -> Kept {
    Kept {
        first: core.peek(tag(1)).copied(),
        second: core.peek(tag(2)).copied(),
        third: core.peek(tag(3)).copied(),
        fourth: core.peek(tag(4)).copied(),
    }
}

/// Time-outs that run, as a value that can be copied.
fn few_of(running: PlainList<Running>) -> Few<Running> {
    Few::of(running.as_slice())
}

/// The running time-outs, or that there is no memory for them.
fn try_timers<M: Module>(core: &Core<M>) -> Result<Few<Running>, Refusal> {
    core.timers().map(few_of)
}

impl Machine for Core<Table> {
    fn begun(rt: &Host<impl Abort>, alloc: Global, begin: &Begin<Table>) -> Core<Table> {
        begun(rt, alloc, begin)
    }

    fn call(&mut self, told: Told) -> Shown {
        let answer = call(self, told);
        let shown = read(&answer);
        drop(answer);
        shown
    }

    fn call_run(
        &mut self,
        commands: Vec<Command<u32>>,
    ) -> Result<Vec<Answer<u32, u32>>, Refused<Vec<Command<u32>>>> {
        self.run(commands)
    }

    fn see(&self) -> Seen {
        see(self)
    }

    fn kept(&self) -> Kept {
        kept_in(self)
    }

    fn try_timers(&self) -> Result<Few<Running>, Refusal> {
        try_timers(self)
    }

    fn next_due(&self) -> Option<u64> {
        Core::next_due(self)
    }

    fn first_message(&self) -> Option<Taken> {
        Core::first_message(self).map(read_message)
    }

    fn tag_of(&self, request: u64) -> Tag {
        self.tag(request)
    }

    fn call_turns(&mut self, now: u64, at_most: u64) -> Turns {
        self.turn_until_idle(now, at_most)
    }

    fn try_snapshot(&mut self) -> Result<Snapshot<Table>, Refusal> {
        self.snapshot()
    }
}

/// The running time-outs, asked for again where memory was refused.
fn timers_again<T: Machine>(rt: &Host<impl Abort>, machine: &T, refusal: Refusal) -> Few<Running> {
    holds(rt, "memory was refused", refusal == Refusal::NoMemory);
    rt.retry();
    got(rt, "one allocation alone is refused", machine.try_timers())
}

/// The running time-outs. Where memory was refused, they are asked for again.
pub fn timers_of<T: Machine>(rt: &Host<impl Abort>, machine: &T) -> Few<Running> {
    let running = match machine.try_timers() {
        Ok(running) => running,
        Err(refusal) => timers_again(rt, machine, refusal),
    };
    holds(rt, "each that runs is shown", running.is_whole());
    running
}

/// All that can be read of a machine.
pub fn read_all<T: Machine>(rt: &Host<impl Abort>, machine: &T) -> Whole {
    Whole {
        seen: machine.see(),
        kept: machine.kept(),
        timers: timers_of(rt, machine),
    }
}
