//! An event that was sent.

use st_lock::Token;

/// An event that was sent: its number, and the machine's token, where it was issued and could not be scheduled. The event
/// was posted all the same; whoever sent it has the token now.
///
/// Ours: docs/DECISIONS.md, Tokens.
#[derive(Clone, Copy, Debug, PartialEq, Eq)]
pub struct Sent {
    pub number: u64,
    pub left: Option<Token>,
}
