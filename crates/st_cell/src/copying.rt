//! Entries are copied, their contents by whatever copies contents.
ghost use Rattle.std.specs.Prelude.{◌≡◌, Ok, IfOk};
ghost use Rattle.st_answers.specs.declared.answer.Answer.TheVariants as answer;

use crate::JournalEntry;
use st_core::{Answer, Collected, Command, Message, PlainList, Refusal, Refused, Report, Turned};
use st_events::CopyContent;
use std::alloc::{AllocError, Global};

/// A copy of a list.
fn copied_list<T: Copy>(list: &PlainList<T>, alloc: Global) -> Result<PlainList<T>, AllocError>
    ensures { IfOk result (λ copy. copy ≡ list.now) }
{
    Ok(PlainList::from(Vec::from_slice(alloc, list.as_slice())?))
}

/// A copy of a report.
fn copied_report<S: Copy>(report: &Report<S>, alloc: Global) -> Result<Report<S>, AllocError>
    ensures { IfOk result (λ copy. copy ≡ report.now) }
{
    let calls = report.calls.copy(alloc)?;
    let replied = copied_list(&report.replied, alloc)?;
    let inserted = copied_list(&report.inserted, alloc)?;
    let set = copied_list(&report.set, alloc)?;
    let sent = copied_list(&report.sent, alloc)?;
    Ok(Report {
        event: report.event,
        done: report.done,
        calls,
        before: report.before,
        after: report.after,
        replied,
        inserted,
        set,
        sent,
    })
}

/// A copy of what a turn answered.
fn copied_turned<S: Copy>(turned: &Turned<S>, alloc: Global) -> Result<Turned<S>, AllocError>
    ensures { IfOk result (λ copy. copy ≡ turned.now) }
{
    match turned {
        Turned::Reported(report) => Ok(Turned::Reported(copied_report(report, alloc)?)),
        Turned::Idle => Ok(Turned::Idle),
    }
}

/// A copy of what was collected.
fn copied_collected<C: Drop, K: CopyContent<C>>(
    collected: &Collected<C>,
    alloc: Global,
    copier: &K,
) -> Result<Collected<C>, AllocError>
    ensures { IfOk result (λ copy. copy ≡ collected.now) }
{
    match collected {
        Collected::Waiting => Ok(Collected::Waiting),
        Collected::Reply(content) => Ok(Collected::Reply(copier.copy_of(alloc, content)?)),
        Collected::Stopped(reason) => Ok(Collected::Stopped(*reason)),
        Collected::Gone => Ok(Collected::Gone),
    }
}

/// A copy of what a post answered.
fn copied_posted<C: Drop, K: CopyContent<C>>(
    posted: &Result<u64, Refused<C>>,
    alloc: Global,
    copier: &K,
) -> Result<Result<u64, Refused<C>>, AllocError>
    ensures { IfOk result (λ copy. copy ≡ posted.now) }
{
    match posted {
        Ok(number) => Ok(Ok(*number)),
        Err(refused) => {
            let value = copier.copy_of(alloc, &refused.value)?;
            Ok(Err(Refused::new(refused.refusal, value)))
        }
    }
}

/// A copy of a message.
pub(crate) fn copied_message<C: Drop, K: CopyContent<C>>(
    message: &Message<C>,
    alloc: Global,
    copier: &K,
) -> Result<Message<C>, AllocError>
    ensures { IfOk result (λ copy. copy ≡ message.now) }
{
    let content = copier.copy_of(alloc, &message.content)?;
    Ok(Message {
        sender: message.sender,
        number: message.number,
        target: message.target,
        content,
    })
}

/// A copy of a message that was taken out, if one was.
fn copied_taken<C: Drop, K: CopyContent<C>>(
    taken: &Option<Message<C>>,
    alloc: Global,
    copier: &K,
) -> Result<Option<Message<C>>, AllocError>
    ensures { IfOk result (λ copy. copy ≡ taken.now) }
{
    match taken {
        None => Ok(None),
        Some(message) => Ok(Some(copied_message(message, alloc, copier)?)),
    }
}

/// A copy of an answer.
fn copied_answer<S: Copy + Drop, C: Drop, K: CopyContent<C>>(
    answer: &Answer<S, C>,
    alloc: Global,
    copier: &K,
) -> Result<Answer<S, C>, AllocError>
    ensures { IfOk result (λ copy. copy ≡ answer.now) }
{
    match answer {
        Answer::Post(posted) => Ok(Answer::Post(copied_posted(posted, alloc, copier)?)),
        Answer::Tick(ticked) => Ok(Answer::Tick(*ticked)),
        Answer::Turn(Ok(turned)) => Ok(Answer::Turn(Ok(copied_turned(turned, alloc)?))),
        Answer::Turn(Err(refusal)) => Ok(Answer::Turn(Err(*refusal))),
        Answer::Reply(taken) => Ok(Answer::Reply(*taken)),
        Answer::Collect(collected) => {
            Ok(Answer::Collect(copied_collected(collected, alloc, copier)?))
        }
        Answer::Stop(stopped) => Ok(Answer::Stop(*stopped)),
        Answer::TakeOut(taken) => Ok(Answer::TakeOut(copied_taken(taken, alloc, copier)?)),
    }
}

/// A copy of a command.
fn copied_command<C: Drop, K: CopyContent<C>>(
    command: &Command<C>,
    alloc: Global,
    copier: &K,
) -> Result<Command<C>, AllocError>
    ensures { IfOk result (λ copy. copy ≡ command.now) }
{
    match command {
        Command::Post(entry, content) => {
            Ok(Command::Post(*entry, copier.copy_of(alloc, content)?))
        }
        Command::Tick(now) => Ok(Command::Tick(*now)),
        Command::Turn(now) => Ok(Command::Turn(*now)),
        Command::Reply(tag, content) => Ok(Command::Reply(*tag, copier.copy_of(alloc, content)?)),
        Command::Collect(tag) => Ok(Command::Collect(*tag)),
        Command::Stop(reason) => Ok(Command::Stop(*reason)),
        Command::TakeOut => Ok(Command::TakeOut),
    }
}

/// A copy of an entry.
fn copied_entry<S: Copy + Drop, C: Drop, K: CopyContent<C>>(
    entry: &JournalEntry<S, C>,
    copier: &K,
    alloc: Global,
) -> Result<JournalEntry<S, C>, AllocError>
    ensures { IfOk result (λ copy. copy ≡ entry.now) }
{
    let command = copied_command(&entry.command, alloc, copier)?;
    let answer = copied_answer(&entry.answer, alloc, copier)?;
    Ok(JournalEntry {
        number: entry.number,
        source: entry.source,
        command,
        answer,
    })
}

/// A copy of each entry, in order.
pub(crate) fn copied_entries<S: Copy + Drop, C: Drop, K: CopyContent<C>>(
    entries: &[JournalEntry<S, C>],
    copier: &K,
    alloc: Global,
) -> Result<PlainList<JournalEntry<S, C>>, AllocError>
    ensures { IfOk result (λ copy. copy ≡ entries.now) }
{
    let mut copies = Vec::with_capacity(alloc, entries.len())?;
    for entry in entries {
        let copy = copied_entry(entry, copier, alloc)?;
        copies.push_reserved(copy);
    }
    Ok(PlainList::from(copies))
}
