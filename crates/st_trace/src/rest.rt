//! What stands at the end of an entry's line.
ghost use Rattle.std.specs.Prelude.{◌≡◌, IfOk, string_bytes};
ghost use Rattle.st_trace.specs.Rest.{posted_text, source_text, delivered_text, timer_text, kind_text, done_text, handled_text, counts_text, numbers_text, report_text, taken_text, collected_text, handed_text, stopped_text, sent_text, out_text, turned_text, rest_of};
ghost use Rattle.st_trace.specs.Entries.{report_as};

use crate::StateNames;
use st_cell::{Answer, Collected, Command, Entry, JournalEntry, Report, Source, Turned};
use st_core::{Call, Calls, Done};
use st_events::{Kind, PlainList, Timer};
use std::alloc::{AllocError, Global};

/// What stands where there is nothing to tell.
pub(crate) const HYPHEN: &str = "-";

/// How an event was posted.
fn posted(entry: Entry) -> &'static str
    ensures { result.now ≡ posted_text entry }
{
    match entry {
        Entry::Call => "call",
        Entry::Cast => "cast",
        Entry::Info => "info",
    }
}

/// Whose message it was that was posted, and which of its sender's: what no message was has nothing here.
fn origin(alloc: Global, source: Source) -> Result<String, AllocError>
    ensures { IfOk result (λ text. string_bytes text ≡ source_text source) }
{
    match source {
        Source::Message(sender, number) => {
            let slot = sender.slot;
            let serial = sender.serial;
            format!(in alloc; " from {slot} {serial} {number}")
        }
        Source::Caller | Source::Port(_) => Ok(String::new(alloc)),
    }
}

/// How an event was posted, and whose message it was.
fn delivered(alloc: Global, entry: Entry, source: Source) -> Result<String, AllocError>
    ensures { IfOk result (λ text. string_bytes text ≡ delivered_text entry source) }
{
    let origin = origin(alloc, source)?;
    let mut text = String::from_str(alloc, posted(entry))?;
    text.push_str(origin.as_str())?;
    Ok(text)
}

/// Which time-out an event is.
fn timer(alloc: Global, timer: Timer) -> Result<String, AllocError>
    ensures { IfOk result (λ text. string_bytes text ≡ timer_text timer) }
{
    match timer {
        Timer::Event => String::from_str(alloc, "timeout"),
        Timer::State => String::from_str(alloc, "state_timeout"),
        Timer::Named(name) => format!(in alloc; "timeout:{name}"),
    }
}

/// What kind of event it is.
fn kind(alloc: Global, kind: Kind) -> Result<String, AllocError>
    ensures { IfOk result (λ text. string_bytes text ≡ kind_text kind) }
{
    match kind {
        Kind::Call(_) => String::from_str(alloc, "call"),
        Kind::Cast => String::from_str(alloc, "cast"),
        Kind::Info => String::from_str(alloc, "info"),
        Kind::Timeout(which) => timer(alloc, which),
        Kind::Internal => String::from_str(alloc, "internal"),
    }
}

/// The kind of the event that a turn handled, by its callbacks.
fn handled<S>(alloc: Global, calls: &Calls<S>) -> Result<String, AllocError>
    ensures { IfOk result (λ text. string_bytes text ≡ handled_text calls.now) }
{
    match calls.get(0) {
        Some(Call::Handle { kind: handled, .. }) => kind(alloc, *handled),
        _ => String::from_str(alloc, HYPHEN),
    }
}

/// How a turn ended.
fn done(alloc: Global, done: Done) -> Result<String, AllocError>
    ensures { IfOk result (λ text. string_bytes text ≡ done_text done) }
{
    match done {
        Done::Started => String::from_str(alloc, HYPHEN),
        Done::Finished => String::from_str(alloc, "finished"),
        Done::PutOff => String::from_str(alloc, "put_off"),
        Done::Ended(reason, _) => format!(in alloc; "ended:{reason}"),
    }
}

/// How many requests a turn answered, how many events it inserted, and how many timers it set.
fn counts<S>(alloc: Global, report: &Report<S>) -> Result<String, AllocError>
    ensures { IfOk result (λ text. string_bytes text ≡ counts_text report.now) }
{
    let replied = report.replied.as_slice().len();
    let inserted = report.inserted.as_slice().len();
    let set = report.set.as_slice().len();
    format!(in alloc; "{replied} {inserted} {set}")
}

/// How many messages a turn sent, if it sent some.
fn sent(alloc: Global, numbers: &PlainList<u64>) -> Result<String, AllocError>
    ensures { IfOk result (λ text. string_bytes text ≡ sent_text numbers.now) }
{
    let count = numbers.len();
    if count == 0 {
        return Ok(String::new(alloc));
    }
    format!(in alloc; " sent {count}")
}

/// The counts of a turn, and how many messages it sent, if it sent some.
fn numbers<S>(alloc: Global, report: &Report<S>) -> Result<String, AllocError>
    ensures { IfOk result (λ text. string_bytes text ≡ numbers_text report.now) }
{
    let sent = sent(alloc, &report.sent)?;
    let mut text = counts(alloc, report)?;
    text.push_str(sent.as_str())?;
    Ok(text)
}

/// What a turn did.
fn reported<S: Copy, N: StateNames<S>>(
    alloc: Global,
    names: &N,
    report: &Report<S>,
) -> Result<String, AllocError>
    ensures { IfOk result (λ text. string_bytes text ≡ report_text (N.name_is names.now) report.now) }
{
    let kind = handled(alloc, &report.calls)?;
    let before = names.name(report.before);
    let after = names.name(report.after);
    let done = done(alloc, report.done)?;
    let numbers = numbers(alloc, report)?;
    format!(in alloc; "{kind} {before} {after} {done} {numbers}")
}

/// What a turn did that was answered so.
fn turned<S: Copy, C, N: StateNames<S>>(
    alloc: Global,
    names: &N,
    answer: &Answer<S, C>,
) -> Result<String, AllocError>
    ensures { IfOk result (λ text. string_bytes text ≡ turned_text (N.name_is names.now) (report_as answer.now)) }
{
    match answer {
        Answer::Turn(Ok(Turned::Reported(report))) => reported(alloc, names, report),
        _ => String::from_str(alloc, HYPHEN),
    }
}

/// Whether a reply was taken.
fn taken<S, C>(answer: &Answer<S, C>) -> &'static str
    ensures { result.now ≡ taken_text answer.now }
{
    match answer {
        Answer::Reply(true) => "yes",
        Answer::Reply(false) => "no",
        _ => HYPHEN,
    }
}

/// What was handed out.
fn collected<C>(alloc: Global, collected: &Collected<C>) -> Result<String, AllocError>
    ensures { IfOk result (λ text. string_bytes text ≡ collected_text collected.now) }
{
    match collected {
        Collected::Reply(_) => String::from_str(alloc, "reply"),
        Collected::Stopped(reason) => format!(in alloc; "stopped:{reason}"),
        _ => String::from_str(alloc, HYPHEN),
    }
}

/// What was handed out by a command that was answered so.
fn handed<S, C>(alloc: Global, answer: &Answer<S, C>) -> Result<String, AllocError>
    ensures { IfOk result (λ text. string_bytes text ≡ handed_text answer.now) }
{
    match answer {
        Answer::Collect(handed) => collected(alloc, handed),
        _ => String::from_str(alloc, HYPHEN),
    }
}

/// A machine's last word.
fn stopped<S, C>(alloc: Global, answer: &Answer<S, C>) -> Result<String, AllocError>
    ensures { IfOk result (λ text. string_bytes text ≡ stopped_text answer.now) }
{
    match answer {
        Answer::Stop(Ok(word)) => format!(in alloc; "word:{word}"),
        _ => String::from_str(alloc, HYPHEN),
    }
}

/// To whom the message goes that was taken out.
fn taken_out<S, C>(alloc: Global, answer: &Answer<S, C>) -> Result<String, AllocError>
    ensures { IfOk result (λ text. string_bytes text ≡ out_text answer.now) }
{
    match answer {
        Answer::TakeOut(Some(message)) => {
            let target = message.target;
            let slot = target.slot;
            let serial = target.serial;
            format!(in alloc; "to {slot} {serial}")
        }
        _ => String::from_str(alloc, HYPHEN),
    }
}

/// What stands at the end of an entry's line.
pub(crate) fn rest<S: Copy, C, N: StateNames<S>>(
    alloc: Global,
    names: &N,
    entry: &JournalEntry<S, C>,
) -> Result<String, AllocError>
    ensures { IfOk result (λ text. string_bytes text ≡ rest_of (N.name_is names.now) entry.now) }
{
    match &entry.command {
        Command::Post(how, _) => delivered(alloc, *how, entry.source),
        Command::Tick(_) => String::from_str(alloc, HYPHEN),
        Command::Turn(_) => turned(alloc, names, &entry.answer),
        Command::Reply(_, _) => String::from_str(alloc, taken(&entry.answer)),
        Command::Collect(_) => handed(alloc, &entry.answer),
        Command::Stop(_) => stopped(alloc, &entry.answer),
        Command::TakeOut => taken_out(alloc, &entry.answer),
    }
}
