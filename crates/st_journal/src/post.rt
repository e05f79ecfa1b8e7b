//! An event that was posted.

use st_answers::Entry;

/// An event that was posted: its number, how it was posted, and its content.
///
/// Ours: docs/DECISIONS.md, Journals.
#[derive(Debug, PartialEq, Eq, Drop)]
pub struct Post<C> {
    /// The event's number.
    pub number: u64,
    /// How it was posted.
    pub entry: Entry,
    /// What it holds.
    pub content: C,
}
