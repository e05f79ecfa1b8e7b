//! The sequence diagram of a journal.
ghost use Rattle.std.specs.Prelude.{◌≡◌, IfOk, string_bytes};
ghost use Rattle.st_diagram.specs.Sequence.{sequence_of};

use crate::DiagramNames;
use crate::entries::entry_lines;
use st_cell::JournalEntry;
use std::alloc::{AllocError, Global};

/// Entries of a journal as a Mermaid sequence diagram: the machine is the participant `m`, which is shown by the label,
/// and each entry has its lines, in order. Who posts is `caller`, `port` with its number, or `machine` with place and
/// serial; `caller` also stands for whoever gets a reply. An entry that tells nothing, as an idle turn or a collect that
/// hands nothing out, has no line.
///
/// Where there is no memory there is no text; the entries are only read.
///
/// Ours: docs/DECISIONS.md, Journals.
pub fn sequence<S: Copy, C, N: DiagramNames<S, C>>(
    alloc: Global,
    names: &N,
    label: &str,
    entries: &[JournalEntry<S, C>],
) -> Result<String, AllocError>
    ensures { IfOk result (λ text. string_bytes text ≡ sequence_of (N.state_is names.now) (N.content_is names.now) label.now entries.now) }
{
    let mut text = format!(in alloc; "sequenceDiagram\n    participant m as {label}\n")?;
    for entry in entries {
        let lines = entry_lines(alloc, names, entry)?;
        text.push_str(lines.as_str())?;
    }
    Ok(text)
}
