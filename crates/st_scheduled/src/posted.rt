//! What a post to a machine that workers serve answers.

use st_events::Token;

/// An event was posted.
///
/// Ours: docs/DECISIONS.md, Tokens.
#[derive(Clone, Copy, Debug, PartialEq, Eq)]
pub struct Posted {
    /// The event's number.
    pub number: u64,
    /// The token that was issued, if one was: the caller has it.
    pub wake: Option<Token>,
}
