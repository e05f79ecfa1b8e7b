//! Journals that tests put together from rows.

use st_cell::{
    Answer, Collected, Command, Entry, Journal, JournalEntry, MachineId, PlainList, Reason, Report,
    Source, Tag, Turned,
};
use st_core::{Call, Done, Message, OneInline};
use st_events::{Decision, Kind, Time, Timer};
use std::alloc::{AllocError, Global};

/// The machine.
const MACHINE: MachineId = MachineId { slot: 0, serial: 1 };

/// An entry of a journal. A state is whether a door is open.
pub type DoorEntry = JournalEntry<bool, char>;

/// What a turn did.
#[derive(Clone, Copy)]
pub struct Turn {
    pub now: u64,
    pub event: u64,
    pub kind: Kind,
    pub before: bool,
    pub after: bool,
    pub done: Done,
    pub replied: usize,
    pub inserted: usize,
    pub set: usize,
    pub sent: usize,
}

/// What an entry tells.
#[derive(Clone, Copy)]
pub enum Row {
    /// A port posts an event, which gets a number.
    Posts(u64, Entry, u64),
    /// The message of a machine with a number is delivered, and its event gets a number.
    Delivers(MachineId, u64, u64),
    /// At a moment so many time-outs expire.
    Ticks(u64, u64),
    /// A turn.
    Turns(Turn),
    /// A request is answered, and the reply is taken or not.
    Replies(u64, bool),
    /// The reply to a request is handed out.
    Collects(u64),
    /// It is handed out that the machine ended before it replied to a request.
    CollectsReason(u64, Reason),
    /// The machine is stopped for a reason, and gives its last word.
    Stops(Reason, u32),
    /// The message with a number is taken out.
    Takes(u64),
}

/// The tag of a request.
fn tag(request: u64) -> Tag {
    Tag::new(MACHINE, request)
}

/// An entry of a call that comes from no port and is no message.
fn told(number: u64, command: Command<char>, answer: Answer<bool, char>) -> DoorEntry {
    JournalEntry {
        number,
        source: Source::Caller,
        command,
        answer,
    }
}

/// The entry of a post that comes from there.
fn posted(number: u64, source: Source, how: Entry, event: u64) -> DoorEntry {
    JournalEntry {
        number,
        source,
        command: Command::Post(how, 'x'),
        answer: Answer::Post(Ok(event)),
    }
}

/// What a turn replied to and sent.
fn outward(alloc: Global, turn: Turn) -> Result<(Vec<Tag>, Vec<u64>), AllocError> {
    let replied = vec![in alloc; tag(0); turn.replied]?;
    let sent = vec![in alloc; 0; turn.sent]?;
    Ok((replied, sent))
}

/// What a turn inserted, and what it asked of timers.
fn inward(alloc: Global, turn: Turn) -> Result<(Vec<u64>, Vec<(Timer, Decision)>), AllocError> {
    let inserted = vec![in alloc; 0; turn.inserted]?;
    let set = vec![in alloc; (Timer::State, Decision::Set(Time::Infinity)); turn.set]?;
    Ok((inserted, set))
}

/// The report of a turn.
fn report(alloc: Global, turn: Turn) -> Result<Report<bool>, AllocError> {
    let call = Call::Handle {
        number: turn.event,
        kind: turn.kind,
        state: turn.before,
    };
    let (replied, sent) = outward(alloc, turn)?;
    let (inserted, set) = inward(alloc, turn)?;
    Ok(Report {
        event: Some(turn.event),
        done: turn.done,
        calls: OneInline::of(alloc, call),
        before: turn.before,
        after: turn.after,
        replied: PlainList::from(replied),
        inserted: PlainList::from(inserted),
        set: PlainList::from(set),
        sent: PlainList::from(sent),
    })
}

/// The entry of a turn.
fn turned(alloc: Global, number: u64, turn: Turn) -> Result<DoorEntry, AllocError> {
    let report = report(alloc, turn)?;
    Ok(told(
        number,
        Command::Turn(turn.now),
        Answer::Turn(Ok(Turned::Reported(report))),
    ))
}

/// A message of the machine to another, with this number.
fn message(number: u64) -> Message<char> {
    Message {
        sender: MACHINE,
        number,
        target: MachineId { slot: 1, serial: 2 },
        content: 'x',
    }
}

/// The entry of a row.
fn entry(alloc: Global, number: u64, row: Row) -> Result<DoorEntry, AllocError> {
    match row {
        Row::Posts(port, how, event) => Ok(posted(number, Source::Port(port), how, event)),
        Row::Delivers(sender, sent, event) => {
            let source = Source::Message(sender, sent);
            Ok(posted(number, source, Entry::Info, event))
        }
        Row::Ticks(now, expired) => Ok(told(number, Command::Tick(now), Answer::Tick(Ok(expired)))),
        Row::Turns(turn) => turned(alloc, number, turn),
        Row::Replies(request, taken) => {
            Ok(told(
                number,
                Command::Reply(tag(request), 'x'),
                Answer::Reply(taken),
            ))
        }
        Row::Collects(request) => {
            Ok(told(
                number,
                Command::Collect(tag(request)),
                Answer::Collect(Collected::Reply('x')),
            ))
        }
        Row::CollectsReason(request, reason) => {
            Ok(told(
                number,
                Command::Collect(tag(request)),
                Answer::Collect(Collected::Stopped(reason)),
            ))
        }
        Row::Stops(reason, word) => Ok(told(number, Command::Stop(reason), Answer::Stop(Ok(word)))),
        Row::Takes(taken) => {
            let message = message(taken);
            Ok(told(number, Command::TakeOut, Answer::TakeOut(Some(message))))
        }
    }
}

/// The entries of the rows.
fn entries(alloc: Global, rows: &[(u64, Row)]) -> Result<Vec<DoorEntry>, AllocError> {
    let mut entries = Vec::new(alloc);
    for (number, row) in rows {
        entries.push(entry(alloc, *number, *row)?)?;
    }
    Ok(entries)
}

/// The journal of the rows, each with its entry's number, by the latest moment before them.
pub fn journal(
    alloc: Global,
    from: u64,
    rows: &[(u64, Row)],
) -> Result<Journal<bool, char>, AllocError> {
    let label = String::from_str(alloc, "front")?;
    let entries = entries(alloc, rows)?;
    Ok(Journal {
        id: MACHINE,
        label,
        from,
        entries: PlainList::from(entries),
    })
}
