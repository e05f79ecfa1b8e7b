//! What a worker carries beside its token.
ghost use Rattle.std.specs.Prelude.{◌≡◌, Option};

use st_events::{Message, Token};

/// What a worker carries beside its token: a message on its way, and a token that a delivery woke.
///
/// Ours: docs/DECISIONS.md, Workers.
#[derive(Drop)]
pub struct Hand<C> {
    /// A message that was taken out of its sender's outbox, and is not delivered yet.
    pub message: Option<Message<C>>,
    /// The token of a machine that a delivery gave work. It stands on no run queue yet.
    pub woken: Option<Token>,
}

impl<C> Hand<C> {
    /// It carries nothing.
    pub fn new() -> Hand<C>
        ensures { result ≡ record { message = None; woken = None } }
    {
        Hand {
            message: None,
            woken: None,
        }
    }
}
