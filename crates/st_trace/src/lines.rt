//! The lines of a trace.
ghost use Rattle.std.specs.Prelude.{◌≡◌, IfOk, string_bytes, decimal};
ghost use Rattle.st_trace.specs.Columns.{number_or_hyphen, IsPlain};
ghost use Rattle.st_trace.specs.Trace.{machine_line, entry_line, summary_line};

use crate::entries::{moment, number, port, word};
use crate::rest::{HYPHEN, rest};
use crate::{StateNames, Totals};
use st_cell::JournalEntry;
use st_events::MachineId;
use std::alloc::{AllocError, Global};

/// A number.
#[tactic(auto, using(crate::proofs::ColumnLemmas::number_is_plain))]
fn decimal(alloc: Global, number: u64) -> Result<String, AllocError>
    ensures text { IfOk result (λ text. string_bytes text ≡ decimal number) }
    ensures plain { IfOk result (λ text. IsPlain (string_bytes text)) }
{
    format!(in alloc; "{number}")
}

/// A number, or a hyphen where there is none.
fn number_or_hyphen(alloc: Global, number: Option<u64>) -> Result<String, AllocError>
    ensures text { IfOk result (λ text. string_bytes text ≡ number_or_hyphen number) }
    ensures plain { IfOk result (λ text. IsPlain (string_bytes text)) }
{
    match number {
        Some(number) => decimal(alloc, number),
        None => String::from_str(alloc, HYPHEN),
    }
}

/// The first line of a trace, that of the machine: its id and its label. It ends with a line feed.
///
/// Where there is no memory there is no line.
///
/// Ours: docs/SCRIPTS.md, Traces.
pub fn machine_line(alloc: Global, id: MachineId, label: &str) -> Result<String, AllocError>
    ensures { IfOk result (λ text. string_bytes text ≡ machine_line id label.now) }
{
    let MachineId { slot, serial } = id;
    format!(in alloc; "machine {slot} {serial} {label}\n")
}

/// The line of an entry, by the latest moment that the machine had seen after it, in milliseconds (`latest_after`). It
/// ends with a line feed.
///
/// Where there is no memory there is no line; the entry is only read.
///
/// Ours: docs/SCRIPTS.md, Traces.
#[tactic(auto, using(crate::proofs::ColumnLemmas::number_to_the_right, crate::proofs::ColumnLemmas::text_to_the_right, crate::proofs::ColumnLemmas::text_to_the_left))]
pub fn entry_line<S: Copy, C, N: StateNames<S>>(
    alloc: Global,
    names: &N,
    latest: u64,
    entry: &JournalEntry<S, C>,
) -> Result<String, AllocError>
    ensures { IfOk result (λ text. string_bytes text ≡ entry_line (N.name_is names.now) latest entry.now) }
{
    let place = entry.number;
    let port = number_or_hyphen(alloc, port(entry.source))?;
    let word = word(&entry.command);
    let moment = number_or_hyphen(alloc, moment(latest, &entry.command))?;
    let number = number_or_hyphen(alloc, number(entry))?;
    let rest = rest(alloc, names, entry)?;
    format!(in alloc; "{place:>10} {port:>6} {word:<7} {moment:>19} {number:>10} {rest}\n")
}

/// The last line of a trace, that of what was counted. It ends with a line feed.
///
/// Where there is no memory there is no line.
///
/// Ours: docs/SCRIPTS.md, Traces.
pub fn summary_line(alloc: Global, totals: Totals) -> Result<String, AllocError>
    ensures { IfOk result (λ text. string_bytes text ≡ summary_line totals) }
{
    let Totals {
        posts,
        turns,
        finished,
        put_off,
    } = totals;
    format!(in alloc; "summary posts {posts} turns {turns} finished {finished} put_off {put_off}\n")
}
