//! What an entry of a journal tells: which command it is, a moment, and a number.
ghost use Rattle.std.specs.Prelude.{◌≡◌};
ghost use Rattle.st_trace.specs.Columns.{IsPlain};
ghost use Rattle.st_trace.specs.Entries.{word_of, latest_after, moment_of, port_of, number_as, number_of};

use st_cell::{Answer, Command, JournalEntry, Source, Turned};

/// The word of a command.
pub(crate) fn word<C>(command: &Command<C>) -> &'static str
    ensures word { result.now ≡ word_of command.now }
    ensures plain { IsPlain result.now }
{
    match command {
        Command::Post(_, _) => "post",
        Command::Tick(_) => "tick",
        Command::Turn(_) => "turn",
        Command::Reply(_, _) => "reply",
        Command::Collect(_) => "collect",
        Command::Stop(_) => "stop",
        Command::TakeOut => "take",
    }
}

/// The latest moment that a machine has seen after a command, by the latest before it, in milliseconds: ticks and turns
/// are handed one. It takes no memory.
///
/// Ours: docs/SCRIPTS.md, Traces.
pub fn latest_after<C>(latest: u64, command: &Command<C>) -> u64
    ensures { result ≡ latest_after latest command.now }
{
    match command {
        Command::Tick(now) => latest.max(*now),
        Command::Turn(now) => latest.max(*now),
        _ => latest,
    }
}

/// The moment that stands in the line of a command, by the latest after it.
pub(crate) fn moment<C>(latest: u64, command: &Command<C>) -> Option<u64>
    ensures { result ≡ moment_of latest command.now }
{
    match command {
        Command::Tick(_) => Some(latest),
        Command::Turn(_) => Some(latest),
        _ => None,
    }
}

/// The port that stands in the line of what came from there.
pub(crate) fn port(source: Source) -> Option<u64>
    ensures { result ≡ port_of source }
{
    match source {
        Source::Port(port) => Some(port),
        Source::Caller | Source::Message(_, _) => None,
    }
}

/// The number that an answer tells.
fn answered_number<S, C>(answer: &Answer<S, C>) -> Option<u64>
    ensures { result ≡ number_as answer.now }
{
    match answer {
        Answer::Post(Ok(number)) => Some(*number),
        Answer::Tick(Ok(expired)) => Some(*expired),
        Answer::Turn(Ok(Turned::Reported(report))) => report.event,
        Answer::TakeOut(Some(message)) => Some(message.number),
        _ => None,
    }
}

/// The number that stands in an entry's line.
pub(crate) fn number<S, C>(entry: &JournalEntry<S, C>) -> Option<u64>
    ensures { result ≡ number_of entry.now }
{
    match &entry.command {
        Command::Reply(tag, _) => Some(tag.request),
        Command::Collect(tag) => Some(tag.request),
        Command::Stop(reason) => Some(u64::from(*reason)),
        _ => answered_number(&entry.answer),
    }
}
