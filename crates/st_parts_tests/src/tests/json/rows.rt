//! Entries that tests put together from rows.

use st_cell::{
    Answer, Collected, Command, Entry, JournalEntry, MachineId, Message, PlainList, Reason,
    Refusal, Refused, Report, Source, Tag, Turned,
};
use st_core::{Call, Done, OneInline};
use st_events::{Decision, Kind, Time, Timer};
use std::alloc::{AllocError, Global};

/// The machine.
const MACHINE: MachineId = MachineId { slot: 0, serial: 1 };

/// An entry of a journal. A state is whether a door is open, and a content a number.
pub type Line = JournalEntry<bool, u32>;

/// What an entry tells.
#[derive(Clone, Copy)]
pub enum Row {
    /// An event comes from there, with a content, and gets a number.
    Posts(Source, Entry, u32, u64),
    /// It is refused.
    IsRefused(Source, Entry, u32, Refusal),
    /// At a moment so many time-outs expire.
    Ticks(u64, u64),
    /// At a moment there is nothing to do.
    Idles(u64),
    /// At a moment a call opens the door.
    Opens(u64),
    /// At a moment a time-out ends the machine.
    Ends(u64),
    /// A request is answered, and the reply is taken or not.
    Replies(u64, u32, bool),
    /// The reply to a request is handed out.
    Collects(u64, u32),
    /// The machine is stopped for a reason, and gives its last word.
    Stops(Reason, u32),
    /// The message with a number is taken out.
    Takes(u64, u32),
    /// No message is there.
    TakesNone,
}

/// The tag of a request.
fn tag(request: u64) -> Tag {
    Tag::new(MACHINE, request)
}

/// An entry of a call that comes from no port and is no message.
fn told(number: u64, command: Command<u32>, answer: Answer<bool, u32>) -> Line {
    JournalEntry {
        number,
        source: Source::Caller,
        command,
        answer,
    }
}

/// The entry of a post that comes from there.
fn posted(
    number: u64,
    source: Source,
    how: Entry,
    content: u32,
    answered: Result<u64, Refused<u32>>,
) -> Line {
    JournalEntry {
        number,
        source,
        command: Command::Post(how, content),
        answer: Answer::Post(answered),
    }
}

/// The calls of the turn that opened the door.
fn opened_calls(alloc: Global) -> Result<OneInline<Call<bool>>, AllocError> {
    let mut calls = OneInline::of(
        alloc,
        Call::Handle {
            number: 3,
            kind: Kind::Call(tag(3)),
            state: false,
        },
    );
    calls.push(Call::Enter {
        old: false,
        state: true,
    })?;
    Ok(calls)
}

/// The requests that it answered, and the events that it inserted.
fn opened_events(alloc: Global) -> Result<(PlainList<Tag>, PlainList<u64>), AllocError> {
    let replied = PlainList::copied(alloc, &[tag(3)])?;
    let inserted = PlainList::copied(alloc, &[4, 5])?;
    Ok((replied, inserted))
}

/// What the turn did that opened the door.
fn opened(alloc: Global) -> Result<Report<bool>, AllocError> {
    let set = [
        (Timer::State, Decision::Set(Time::After(10_000))),
        (Timer::Named(7), Decision::Cancel),
    ];
    let set = PlainList::copied(alloc, &set)?;
    let (replied, inserted) = opened_events(alloc)?;
    let calls = opened_calls(alloc)?;
    Ok(Report {
        event: Some(3),
        done: Done::Finished,
        calls,
        before: false,
        after: true,
        replied,
        inserted,
        set,
        sent: PlainList::new(alloc),
    })
}

/// The calls of the turn that ended the machine.
fn ended_calls(alloc: Global) -> Result<OneInline<Call<bool>>, AllocError> {
    let mut calls = OneInline::of(
        alloc,
        Call::Handle {
            number: 5,
            kind: Kind::Timeout(Timer::Event),
            state: true,
        },
    );
    calls.push(Call::Terminate {
        reason: 9,
        state: true,
        word: 4,
    })?;
    Ok(calls)
}

/// What the turn did that ended the machine.
fn ended(alloc: Global) -> Result<Report<bool>, AllocError> {
    let sent = PlainList::copied(alloc, &[2])?;
    let calls = ended_calls(alloc)?;
    Ok(Report {
        event: Some(5),
        done: Done::Ended(9, 4),
        calls,
        before: true,
        after: true,
        replied: PlainList::new(alloc),
        inserted: PlainList::new(alloc),
        set: PlainList::new(alloc),
        sent,
    })
}

/// The entry of a turn.
fn turned(number: u64, now: u64, did: Turned<bool>) -> Line {
    told(number, Command::Turn(now), Answer::Turn(Ok(did)))
}

/// A message of the machine to another.
fn message(number: u64, content: u32) -> Message<u32> {
    Message {
        sender: MACHINE,
        number,
        target: MachineId { slot: 1, serial: 2 },
        content,
    }
}

/// The entry of a row.
pub fn entry(alloc: Global, number: u64, row: Row) -> Result<Line, AllocError> {
    let entry = match row {
        Row::Posts(source, how, content, event) => {
            posted(number, source, how, content, Ok(event))
        }
        Row::IsRefused(source, how, content, refusal) => {
            let answered = Err(Refused::new(refusal, content));
            posted(number, source, how, content, answered)
        }
        Row::Ticks(now, expired) => told(number, Command::Tick(now), Answer::Tick(Ok(expired))),
        Row::Idles(now) => turned(number, now, Turned::Idle),
        Row::Opens(now) => turned(number, now, Turned::Reported(opened(alloc)?)),
        Row::Ends(now) => turned(number, now, Turned::Reported(ended(alloc)?)),
        Row::Replies(request, content, taken) => {
            let command = Command::Reply(tag(request), content);
            told(number, command, Answer::Reply(taken))
        }
        Row::Collects(request, content) => {
            let answer = Answer::Collect(Collected::Reply(content));
            told(number, Command::Collect(tag(request)), answer)
        }
        Row::Stops(reason, word) => told(number, Command::Stop(reason), Answer::Stop(Ok(word))),
        Row::Takes(taken, content) => {
            let answer = Answer::TakeOut(Some(message(taken, content)));
            told(number, Command::TakeOut, answer)
        }
        Row::TakesNone => told(number, Command::TakeOut, Answer::TakeOut(None)),
    };
    Ok(entry)
}
