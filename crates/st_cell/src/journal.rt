//! A journal.

use crate::JournalEntry;
use st_events::{MachineId, PlainList};

/// A copy of a machine's journal: the commands that it took since its base, with its answers, in order.
///
/// Ours: docs/DECISIONS.md, Journals.
#[derive(Debug, PartialEq, Eq, Drop)]
pub struct Journal<S, C> {
    /// The machine's id.
    pub id: MachineId,
    /// What whoever asked for the journal calls the machine.
    pub label: String,
    /// The latest moment, in milliseconds, that the machine had seen before the first entry.
    pub from: u64,
    /// The entries.
    pub entries: PlainList<JournalEntry<S, C>>,
}
