//! Why a turn was not made.

use st_events::Refusal;

/// Why a turn was not made with the answers that were handed in.
///
/// Ours: docs/TRANSITIONS.md, Refusals.
#[derive(Clone, Copy, Debug, PartialEq, Eq)]
pub enum WhyNot {
    /// The answers are to an event that is not the machine's next one.
    NotNext,
    /// The turn was refused.
    Refused(Refusal),
}
