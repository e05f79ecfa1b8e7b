//! The lines of a journal's entries.
ghost use Rattle.std.specs.Prelude.{◌≡◌, IfOk, string_bytes};
ghost use Rattle.st_diagram.specs.Sequence.{entry_word, post_line, tick_line, told_line, collect_line, stop_line, out_line, entry_lines};

use crate::DiagramNames;
use crate::participants::{machine, source};
use crate::turns::turned;
use st_cell::{Answer, Collected, Command, Entry, JournalEntry, Reason, Source};
use st_events::Tag;
use std::alloc::{AllocError, Global};

/// How an event was posted.
fn word(entry: Entry) -> &'static str
    ensures { result.now ≡ entry_word entry }
{
    match entry {
        Entry::Call => "call",
        Entry::Cast => "cast",
        Entry::Info => "info",
    }
}

/// The line of a post: the event's number, how it was posted, and its content. One that was refused has no number.
fn posted<S: Copy, C, N: DiagramNames<S, C>>(
    alloc: Global,
    names: &N,
    from: Source,
    entry: Entry,
    content: &C,
    answer: &Answer<S, C>,
) -> Result<String, AllocError>
    ensures { IfOk result (λ text. string_bytes text ≡ post_line (N.content_is names.now) from entry content.now answer.now) }
{
    let from = source(alloc, from)?;
    let content = names.content(alloc, content)?;
    let word = word(entry);
    match answer {
        Answer::Post(Ok(number)) => {
            format!(in alloc; "    {from}->>m: {number} {word} {content}\n")
        }
        Answer::Post(Err(_refused)) => format!(in alloc; "    {from}-xm: {word} {content}\n"),
        _ => Ok(String::new(alloc)),
    }
}

/// The line of a tick: the moment, and how many time-outs expired.
fn ticked<S, C>(alloc: Global, now: u64, answer: &Answer<S, C>) -> Result<String, AllocError>
    ensures { IfOk result (λ text. string_bytes text ≡ tick_line now answer.now) }
{
    match answer {
        Answer::Tick(Ok(expired)) => {
            format!(in alloc; "    Note over m: at {now}, {expired} expired\n")
        }
        _ => Ok(String::new(alloc)),
    }
}

/// The line of a reply from outside: which request, and with what.
fn replied<S: Copy, C, N: DiagramNames<S, C>>(
    alloc: Global,
    names: &N,
    tag: Tag,
    content: &C,
    answer: &Answer<S, C>,
) -> Result<String, AllocError>
    ensures { IfOk result (λ text. string_bytes text ≡ told_line (N.content_is names.now) tag content.now answer.now) }
{
    let request = tag.request;
    let content = names.content(alloc, content)?;
    match answer {
        Answer::Reply(true) => format!(in alloc; "    caller->>m: reply to {request} {content}\n"),
        Answer::Reply(false) => format!(in alloc; "    caller-xm: reply to {request} {content}\n"),
        _ => Ok(String::new(alloc)),
    }
}

/// The line of a collect: what was handed out for which request.
fn collected<S: Copy, C, N: DiagramNames<S, C>>(
    alloc: Global,
    names: &N,
    tag: Tag,
    answer: &Answer<S, C>,
) -> Result<String, AllocError>
    ensures { IfOk result (λ text. string_bytes text ≡ collect_line (N.content_is names.now) tag answer.now) }
{
    let request = tag.request;
    match answer {
        Answer::Collect(Collected::Reply(content)) => {
            let content = names.content(alloc, content)?;
            format!(in alloc; "    m->>caller: reply to {request} {content}\n")
        }
        Answer::Collect(Collected::Stopped(reason)) => {
            format!(in alloc; "    m-xcaller: no reply to {request}, ended with {reason}\n")
        }
        _ => Ok(String::new(alloc)),
    }
}

/// The line of a stop: the reason, and the machine's last word.
fn stopped<S, C>(alloc: Global, reason: Reason, answer: &Answer<S, C>) -> Result<String, AllocError>
    ensures { IfOk result (λ text. string_bytes text ≡ stop_line reason answer.now) }
{
    match answer {
        Answer::Stop(Ok(word)) => format!(in alloc; "    caller-xm: stop {reason}, word {word}\n"),
        _ => Ok(String::new(alloc)),
    }
}

/// The line of a message that was taken out: to whom it goes, and its content.
fn taken_out<S: Copy, C, N: DiagramNames<S, C>>(
    alloc: Global,
    names: &N,
    answer: &Answer<S, C>,
) -> Result<String, AllocError>
    ensures { IfOk result (λ text. string_bytes text ≡ out_line (N.content_is names.now) answer.now) }
{
    match answer {
        Answer::TakeOut(Some(message)) => {
            let target = machine(alloc, message.target)?;
            let content = names.content(alloc, &message.content)?;
            format!(in alloc; "    m->>{target}: {content}\n")
        }
        _ => Ok(String::new(alloc)),
    }
}

/// The lines of an entry. One that tells nothing has none.
pub(crate) fn entry_lines<S: Copy, C, N: DiagramNames<S, C>>(
    alloc: Global,
    names: &N,
    entry: &JournalEntry<S, C>,
) -> Result<String, AllocError>
    ensures { IfOk result (λ text. string_bytes text ≡ entry_lines (N.state_is names.now) (N.content_is names.now) entry.now) }
{
    let answer = &entry.answer;
    match &entry.command {
        Command::Post(how, content) => posted(alloc, names, entry.source, *how, content, answer),
        Command::Tick(now) => ticked(alloc, *now, answer),
        Command::Turn(_) => turned(alloc, names, answer),
        Command::Reply(tag, content) => replied(alloc, names, *tag, content, answer),
        Command::Collect(tag) => collected(alloc, names, *tag, answer),
        Command::Stop(reason) => stopped(alloc, *reason, answer),
        Command::TakeOut => taken_out(alloc, names, answer),
    }
}
