//! What turns in a row came to.

use crate::TurnsEnd;

/// What turns in a row came to.
///
/// Ours: docs/DECISIONS.md, Runs.
#[derive(Clone, Copy, Debug, PartialEq, Eq)]
pub struct Turns {
    /// How many turns handled an event.
    pub reported: u64,
    /// Why no more were made.
    pub end: TurnsEnd,
}
