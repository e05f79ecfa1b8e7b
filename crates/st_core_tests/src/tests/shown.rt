//! Answers and reports as values that can be copied and compared.
use super::few::Few;
use super::host::{Host, same};
use st_core::{
    Answer, Call, Calls, Collected, Decision, Done, MachineId, Message, Reason, Refusal, Report,
    Tag, Timer, Turned,
};
use std::alloc::AllocError;
use std::process::Abort;

/// What a command answers.
#[derive(Copy, Debug, PartialEq, Eq)]
pub enum Shown {
    /// A post is accepted, and its event gets this number.
    Posted(u64),
    /// A post is refused, and its content comes back.
    NotPosted(Refusal, u32),
    /// At a tick so many time-outs expire.
    Ticked(u64),
    NotTicked(Refusal),
    /// A turn handles an event.
    Reported(Did),
    /// A turn finds no event.
    Idle,
    NotTurned(Refusal),
    /// Whether a reply is taken.
    Replied(bool),
    /// The request that is collected is open.
    Waiting,
    /// A reply is collected.
    Collected(u32),
    /// The request that is collected was open when the machine ended.
    Closed(Reason),
    /// Nothing is kept for the request that is collected.
    Gone,
    /// A stop is accepted, and the machine has this last word.
    Stopped(u32),
    NotStopped(Refusal),
    /// A message is taken out, or there is none.
    TakenOut(Option<Taken>),
}

impl Clone for Shown {
    fn clone(&self) -> Result<Shown, AllocError> {
        Ok(*self)
    }
}

/// A message of a machine: its sender, its number, its target and its content.
#[derive(Copy, Debug, PartialEq, Eq)]
pub struct Taken {
    pub sender: MachineId,
    pub number: u64,
    pub target: MachineId,
    pub content: u32,
}

impl Clone for Taken {
    fn clone(&self) -> Result<Taken, AllocError> {
        Ok(*self)
    }
}

/// What a start or a turn does.
#[derive(Copy, Debug, PartialEq, Eq)]
pub struct Did {
    pub event: Option<u64>,
    pub done: Done,
    pub calls: Few<Call<u32>>,
    pub before: u32,
    pub after: u32,
    pub replied: Few<Tag>,
    pub inserted: Few<u64>,
    pub set: Few<(Timer, Decision)>,
    pub sent: Few<u64>,
}

impl Clone for Did {
    fn clone(&self) -> Result<Did, AllocError> {
        Ok(*self)
    }
}

/// Calls, as a value that can be compared.
fn calls_of(calls: &Calls<u32>) -> Few<Call<u32>> {
    Few {
        count: calls.len(),
        first: calls.get(0).copied(),
        second: calls.get(1).copied(),
        third: calls.get(2).copied(),
    }
}

/// A report, as a value that can be compared.
pub fn read_report(report: &Report<u32>) -> Did {
    Did {
        event: report.event,
        done: report.done,
        calls: calls_of(&report.calls),
        before: report.before,
        after: report.after,
        replied: Few::of(report.replied.as_slice()),
        inserted: Few::of(report.inserted.as_slice()),
        set: Few::of(report.set.as_slice()),
        sent: Few::of(report.sent.as_slice()),
    }
}

/// What was collected, as a value that can be compared.
fn read_collected(collected: &Collected<u32>) -> Shown {
    match collected {
        Collected::Waiting => Shown::Waiting,
        Collected::Reply(content) => Shown::Collected(*content),
        Collected::Stopped(reason) => Shown::Closed(*reason),
        Collected::Gone => Shown::Gone,
    }
}

/// A message, as a value that can be compared.
pub fn read_message(message: &Message<u32>) -> Taken {
    Taken {
        sender: message.sender,
        number: message.number,
        target: message.target,
        content: message.content,
    }
}

/// An answer, as a value that can be compared.
pub fn read(answer: &Answer<u32, u32>) -> Shown {
    match answer {
        Answer::Post(Ok(number)) => Shown::Posted(*number),
        Answer::Post(Err(refused)) => Shown::NotPosted(refused.refusal, refused.value),
        Answer::Tick(Ok(count)) => Shown::Ticked(*count),
        Answer::Tick(Err(refusal)) => Shown::NotTicked(*refusal),
        Answer::Turn(Ok(Turned::Reported(report))) => Shown::Reported(read_report(report)),
        Answer::Turn(Ok(Turned::Idle)) => Shown::Idle,
        Answer::Turn(Err(refusal)) => Shown::NotTurned(*refusal),
        Answer::Reply(taken) => Shown::Replied(*taken),
        Answer::Collect(collected) => read_collected(collected),
        Answer::Stop(Ok(word)) => Shown::Stopped(*word),
        Answer::Stop(Err(refusal)) => Shown::NotStopped(*refusal),
        Answer::TakeOut(None) => Shown::TakenOut(None),
        Answer::TakeOut(Some(message)) => Shown::TakenOut(Some(read_message(message))),
    }
}

/// Looks that an answer is the one that is wanted. Each look at a machine's answer is this one, for the traits
/// of all these types are found once, here.
pub fn shows(rt: &Host<impl Abort>, shown: &Shown, wanted: &Shown) {
    same(rt, "the answer", shown, wanted);
}

/// Looks that an answer of a run, or of a step, is the one that is wanted.
pub fn agree(rt: &Host<impl Abort>, answer: &Answer<u32, u32>, wanted: &Shown) {
    shows(rt, &read(answer), wanted);
}

/// Looks that a report says what is wanted.
pub fn reports(rt: &Host<impl Abort>, report: &Report<u32>, wanted: &Did) {
    same(rt, "the report", &read_report(report), wanted);
}

impl Shown {
    /// Why a command is refused, if it is.
    pub fn refusal(&self) -> Option<Refusal> {
        match self {
            Shown::NotPosted(refusal, _) => Some(*refusal),
            Shown::NotTicked(refusal) => Some(*refusal),
            Shown::NotTurned(refusal) => Some(*refusal),
            Shown::NotStopped(refusal) => Some(*refusal),
            _ => None,
        }
    }

    /// Says whether a command is refused for want of memory.
    pub fn found_no_memory(&self) -> bool {
        self.refusal() == Some(Refusal::NoMemory)
    }

    /// Says whether a command answers so only where it has taken memory. A stop, a reply, a collect and a take-out
    /// take none, nor does a post that is refused, a tick at which nothing expires, or a turn before its callback.
    pub fn takes_memory(&self) -> bool {
        match self {
            Shown::Posted(_) | Shown::Reported(_) | Shown::NotTurned(Refusal::Exhausted) => true,
            Shown::Ticked(count) => *count > 0,
            _ => false,
        }
    }
}
