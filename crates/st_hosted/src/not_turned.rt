//! What a turn that was not made gives back.

use crate::WhyNot;

/// Why a turn was not made, and the answers that it had taken.
///
/// Ours: docs/TRANSITIONS.md, Refusals.
#[derive(Drop)]
pub struct NotTurned<M> {
    /// Why.
    pub why: WhyNot,
    /// The answers, as they were handed in.
    pub answers: M,
}
