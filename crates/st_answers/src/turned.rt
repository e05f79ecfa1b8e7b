//! What a turn answers.

use crate::Report;

/// What a turn answers.
///
/// Ours: docs/TRANSITIONS.md, A turn.
#[derive(Debug, PartialEq, Eq, Drop)]
pub enum Turned<S> {
    /// It handled an event.
    Reported(Report<S>),
    /// There was no event to handle.
    Idle,
}
