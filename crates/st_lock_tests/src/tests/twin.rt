//! A machine by itself, which is told what a cell's journal says.
use super::begun::is_made_again;
use super::host::{Host, got, holds};
use super::plain::Plain;
use st_core::{Answer, Command, Core, MachineId, MachineState, Refusal, Start};
use st_lock::JournalEntry;
use st_replay::{Replayed, replay};
use std::alloc::Global;
use std::process::Abort;

/// A machine by itself.
pub trait Twin: Drop {
    /// One of this id that has started at the moment 0, and whose first event gets this number; or why there is none.
    fn try_start(
        rt: &Host<impl Abort>,
        alloc: Global,
        id: MachineId,
        first: u64,
    ) -> Result<Self, Refusal>;

    /// Does one command.
    fn do_step(&mut self, command: Command<u32>) -> Answer<u32, u32>;

    /// The whole machine as a value, or that there is no memory for it.
    fn try_snapshot(&mut self) -> Result<MachineState<u32, u32, u32>, Refusal>;

    /// Replays entries: how that ends, and the state in which it leaves the machine.
    fn replay_all(&mut self, alloc: Global, entries: &[JournalEntry<u32, u32>]) -> (Replayed, u32);
}

impl Twin for Core<Plain> {
    fn try_start(
        rt: &Host<impl Abort>,
        alloc: Global,
        id: MachineId,
        first: u64,
    ) -> Result<Core<Plain>, Refusal> {
        holds(rt, "the first number is above 0", first >= 1);
        holds(rt, "the first number is below 2^63", first < 1 << 63);
        match Core::start_from(alloc, Plain, id, &(), 0, first) {
            Ok(Start::Running(core, report)) => {
                drop(report);
                Ok(core)
            }
            Ok(Start::Ignored) => Err(Refusal::NotPossible),
            Ok(Start::Stopped(_)) => Err(Refusal::NotPossible),
            Err(refused) => Err(refused.refusal),
        }
    }

    fn do_step(&mut self, command: Command<u32>) -> Answer<u32, u32> {
        self.step(command)
    }

    fn try_snapshot(&mut self) -> Result<MachineState<u32, u32, u32>, Refusal> {
        self.snapshot()
    }

    fn replay_all(&mut self, alloc: Global, entries: &[JournalEntry<u32, u32>]) -> (Replayed, u32) {
        let replayed = replay(alloc, self, entries);
        (replayed, self.state())
    }
}

/// Starts a machine. Where it finds no memory, it is started again.
pub fn started<U: Twin>(rt: &Host<impl Abort>, alloc: Global, id: MachineId, first: u64) -> U {
    match U::try_start(rt, alloc, id, first) {
        Ok(machine) => machine,
        Err(refusal) => {
            is_made_again(rt, refusal);
            let again = U::try_start(rt, alloc, id, first);
            got(rt, "one allocation alone is refused", again)
        }
    }
}

/// The same command.
fn copy_of(command: &Command<u32>) -> Command<u32> {
    match command {
        Command::Post(entry, content) => Command::Post(*entry, *content),
        Command::Tick(now) => Command::Tick(*now),
        Command::Turn(now) => Command::Turn(*now),
        Command::Reply(tag, content) => Command::Reply(*tag, *content),
        Command::Collect(tag) => Command::Collect(*tag),
        Command::Stop(reason) => Command::Stop(*reason),
        Command::TakeOut => Command::TakeOut,
    }
}

/// Says whether a command found no memory.
fn found_no_memory(answer: &Answer<u32, u32>) -> bool {
    match answer {
        Answer::Post(Err(refused)) => refused.refusal == Refusal::NoMemory,
        Answer::Tick(Err(refusal)) => *refusal == Refusal::NoMemory,
        Answer::Turn(Err(refusal)) => *refusal == Refusal::NoMemory,
        _ => false,
    }
}

/// Does one command. Where it finds no memory, it is done again.
pub fn steps<U: Twin>(
    rt: &Host<impl Abort>,
    twin: &mut U,
    command: &Command<u32>,
) -> Answer<u32, u32> {
    let answer = twin.do_step(copy_of(command));
    if !found_no_memory(&answer) {
        return answer;
    }
    drop(answer);
    rt.retry();
    twin.do_step(copy_of(command))
}

/// The whole machine as a value. Where memory was refused, it is asked for again.
pub fn snapshot_of<U: Twin>(rt: &Host<impl Abort>, twin: &mut U) -> MachineState<u32, u32, u32> {
    match twin.try_snapshot() {
        Ok(snapshot) => snapshot,
        Err(refusal) => {
            is_made_again(rt, refusal);
            twin.try_snapshot()
                .expect(rt, "one allocation alone is refused")
        }
    }
}

/// Does the commands of a journal, and looks that each is answered as the journal says.
pub fn tells<U: Twin>(rt: &Host<impl Abort>, twin: &mut U, entries: &[JournalEntry<u32, u32>]) {
    for entry in entries {
        let answer = steps(rt, twin, &entry.command);
        let is_told = answer == entry.answer;
        drop(answer);
        holds(rt, "the twin answers as the journal says", is_told);
    }
}
