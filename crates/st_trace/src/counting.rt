//! Counts what is in a journal.
ghost use Rattle.std.specs.Prelude.{◌≡◌};
ghost use Rattle.st_trace.specs.Totals.{is_post, is_turn, has_finished, has_put_off, posts_in, turns_in, finished_in, put_off_in, totals_of};

use crate::Totals;
use st_cell::{Answer, Command, Journal, JournalEntry, Turned};
use st_core::Done;

/// Says whether a command is a post.
fn is_post<C>(command: &Command<C>) -> bool
    ensures { result ≡ is_post command.now }
{
    matches!(command, Command::Post(_, _))
}

/// Says whether a command is a turn.
fn is_turn<C>(command: &Command<C>) -> bool
    ensures { result ≡ is_turn command.now }
{
    matches!(command, Command::Turn(_))
}

/// Says whether an entry is a turn that finished its event.
fn has_finished<S, C>(entry: &JournalEntry<S, C>) -> bool
    ensures { result ≡ has_finished entry.now }
{
    match (&entry.command, &entry.answer) {
        (Command::Turn(_), Answer::Turn(Ok(Turned::Reported(report)))) => {
            report.done == Done::Finished
        }
        _ => false,
    }
}

/// Says whether an entry is a turn that put its event off.
fn has_put_off<S, C>(entry: &JournalEntry<S, C>) -> bool
    ensures { result ≡ has_put_off entry.now }
{
    match (&entry.command, &entry.answer) {
        (Command::Turn(_), Answer::Turn(Ok(Turned::Reported(report)))) => {
            report.done == Done::PutOff
        }
        _ => false,
    }
}

/// How many entries are posts.
fn posts<S, C>(entries: &[JournalEntry<S, C>]) -> usize
    ensures { result ≡ posts_in entries.now }
{
    entries
        .iter()
        .filter(|entry| is_post(&entry.command))
        .count()
}

/// How many entries are turns.
fn turns<S, C>(entries: &[JournalEntry<S, C>]) -> usize
    ensures { result ≡ turns_in entries.now }
{
    entries
        .iter()
        .filter(|entry| is_turn(&entry.command))
        .count()
}

/// How many entries are turns that finished their event.
fn finished<S, C>(entries: &[JournalEntry<S, C>]) -> usize
    ensures { result ≡ finished_in entries.now }
{
    entries.iter().filter(|entry| has_finished(entry)).count()
}

/// How many entries are turns that put their event off.
fn put_off<S, C>(entries: &[JournalEntry<S, C>]) -> usize
    ensures { result ≡ put_off_in entries.now }
{
    entries.iter().filter(|entry| has_put_off(entry)).count()
}

/// What entries of a journal come to. A turn that ended the machine counts among the turns alone. It takes no memory.
///
/// Ours: docs/SCRIPTS.md, Traces.
pub fn totals_in<S, C>(entries: &[JournalEntry<S, C>]) -> Totals
    ensures { result ≡ totals_of entries.now }
{
    Totals {
        posts: posts(entries),
        turns: turns(entries),
        finished: finished(entries),
        put_off: put_off(entries),
    }
}

/// What a journal's entries come to, as `totals_in` counts them; of a journal that was cut the entries that are left
/// count. It takes no memory.
///
/// Ours: docs/SCRIPTS.md, Traces.
pub fn summary<S, C>(journal: &Journal<S, C>) -> Totals
    ensures { result ≡ totals_of journal.now.entries }
{
    totals_in(journal.entries.as_slice())
}
