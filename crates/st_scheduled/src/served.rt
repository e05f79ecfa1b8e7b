//! What came of it that a machine was served.

use st_core::Report;

/// What came of it that a machine was served.
///
/// Ours: docs/DECISIONS.md, Tokens.
#[derive(Debug, PartialEq, Eq, Drop)]
pub enum Served<S> {
    /// What its turn did.
    Turned(Report<S>),
    /// There was no event for a turn, but there is a message to be taken out: the token stays.
    Sending,
    /// There was neither, as where the machine has ended: its token was retired.
    Rested,
}
