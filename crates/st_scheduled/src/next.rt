//! What becomes of a token.

use st_events::Token;

/// What becomes of the token by which a machine was served.
///
/// Ours: docs/DECISIONS.md, Tokens.
#[derive(Clone, Copy, Debug, PartialEq, Eq)]
pub enum Next {
    /// The machine has work still, an event or a message to be taken out: the token is to be served again.
    Again(Token),
    /// The machine has no work, neither an event nor a message to be taken out: the token is retired.
    Rest,
}
