//! The lines of a turn: a note of how it ended, and an arrow for each reply.
ghost use Rattle.std.specs.Prelude.{◌≡◌, ◌++◌, IfOk, string_bytes, flat_map};
ghost use Rattle.st_diagram.specs.Sequence.{done_text, note_of, reply_line, report_lines, turn_lines};

use crate::DiagramNames;
use st_cell::{Answer, Report, Turned};
use st_core::Done;
use st_events::Tag;
use std::alloc::{AllocError, Global};

/// How a turn ended.
fn done<S: Copy, C, N: DiagramNames<S, C>>(
    alloc: Global,
    names: &N,
    report: &Report<S>,
) -> Result<String, AllocError>
    ensures { IfOk result (λ text. string_bytes text ≡ done_text (N.state_is names.now) report.now.done report.now.before report.now.after) }
{
    let before = names.state(alloc, report.before)?;
    let after = names.state(alloc, report.after)?;
    match report.done {
        Done::Started => format!(in alloc; "started in {before}"),
        Done::Finished => format!(in alloc; "handled in {before}, then {after}"),
        Done::PutOff => format!(in alloc; "postponed in {before}"),
        Done::Ended(reason, word) => {
            format!(in alloc; "ended with {reason} in {before}, word {word}")
        }
    }
}

/// The note of a turn that handled the event of a number and ended so; a start, which has no event, has none.
fn note(alloc: Global, event: Option<u64>, done: &str) -> Result<String, AllocError>
    ensures { IfOk result (λ text. string_bytes text ≡ note_of event done.now) }
{
    match event {
        Some(number) => format!(in alloc; "    Note over m: {number} {done}\n"),
        None => Ok(String::new(alloc)),
    }
}

/// The lines of the requests that were answered, behind a text.
fn replies(alloc: Global, mut text: String, replied: &[Tag]) -> Result<String, AllocError>
    ensures { IfOk result (λ all. string_bytes all ≡ string_bytes text ++ flat_map reply_line replied.now) }
{
    for tag in replied {
        let request = tag.request;
        let line = format!(in alloc; "    m-->>caller: reply to {request}\n")?;
        text.push_str(line.as_str())?;
    }
    Ok(text)
}

/// The lines of what a turn did.
fn reported<S: Copy, C, N: DiagramNames<S, C>>(
    alloc: Global,
    names: &N,
    report: &Report<S>,
) -> Result<String, AllocError>
    ensures { IfOk result (λ text. string_bytes text ≡ report_lines (N.state_is names.now) report.now) }
{
    let done = done(alloc, names, report)?;
    let note = note(alloc, report.event, done.as_str())?;
    replies(alloc, note, report.replied.as_slice())
}

/// The lines of a turn that was answered so: one without an event has none.
pub(crate) fn turned<S: Copy, C, N: DiagramNames<S, C>>(
    alloc: Global,
    names: &N,
    answer: &Answer<S, C>,
) -> Result<String, AllocError>
    ensures { IfOk result (λ text. string_bytes text ≡ turn_lines (N.state_is names.now) answer.now) }
{
    match answer {
        Answer::Turn(Ok(Turned::Reported(report))) => reported(alloc, names, report),
        _ => Ok(String::new(alloc)),
    }
}
