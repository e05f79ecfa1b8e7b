//! What comes of serving a token.

use st_registry::{Refusal, Token};

/// What comes of serving a token.
///
/// Ours: docs/DECISIONS.md, Halls.
#[derive(Clone, Copy)]
pub struct Served {
    /// The token, where the machine is to be served by it again: a message was delivered or taken out, it has work still,
    /// or it refused what was asked and kept the token. `None`: the machine rests or has ended, was removed, or has another
    /// token outstanding.
    pub token: Option<Token>,
    /// Why nothing was done, if nothing was.
    pub refusal: Option<Refusal>,
}
