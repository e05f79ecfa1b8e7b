//! The trace of a journal.
ghost use Rattle.std.specs.Prelude.{◌≡◌, IfOk, string_bytes};
ghost use Rattle.st_trace.specs.Trace.{trace_of};

use crate::entries::latest_after;
use crate::lines::{entry_line, machine_line, summary_line};
use crate::{StateNames, summary};
use st_cell::Journal;
use std::alloc::{AllocError, Global};

/// A journal as text: the line of the machine, one line for each entry, and the line of what was counted. Each line
/// ends with a line feed; moments are in milliseconds. Of a journal that was cut the entries that are left are told,
/// with the numbers that they have.
///
/// Where there is no memory there is no text; the journal is only read.
///
/// Ours: docs/SCRIPTS.md, Traces.
pub fn trace_text<S: Copy, C, N: StateNames<S>>(
    alloc: Global,
    journal: &Journal<S, C>,
    names: &N,
) -> Result<Vec<u8>, AllocError>
    ensures { IfOk result (λ text. text.items ≡ trace_of journal.now.id (string_bytes journal.now.label) journal.now.from journal.now.entries (N.name_is names.now)) }
{
    let mut text = machine_line(alloc, journal.id, journal.label.as_str())?;
    let mut latest = journal.from;
    for entry in journal.entries.as_slice() {
        latest = latest_after(latest, &entry.command);
        let line = entry_line(alloc, names, latest, entry)?;
        text.push_str(line.as_str())?;
    }
    let line = summary_line(alloc, summary(journal))?;
    text.push_str(line.as_str())?;
    Ok(text.into_bytes())
}
