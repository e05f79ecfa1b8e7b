//! What came of a token that was served.

/// Where a token is after its turn.
///
/// Ours: docs/DECISIONS.md, Workers.
#[derive(Clone, Copy, PartialEq, Eq)]
pub enum Served {
    /// On its worker's own run queue, to be served again.
    Requeued,
    /// With its worker, to be served again: the run queue refused it.
    Held,
    /// Nowhere: its machine rests.
    Rested,
}
