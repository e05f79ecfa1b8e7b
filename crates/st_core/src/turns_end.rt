//! Why no more turns are made.

use st_events::Refusal;

/// Why no more turns are made.
///
/// Ours: docs/DECISIONS.md, Runs.
#[derive(Clone, Copy, Debug, PartialEq, Eq)]
pub enum TurnsEnd {
    /// There is no event left that a turn would handle.
    Idle,
    /// As many turns were made as were asked for, and there is an event left.
    AtMost,
    /// The machine has ended.
    Ended,
    /// The last turn was refused, and changed nothing.
    Refused(Refusal),
}
