//! What comes of serving a machine.
use st_cell::{Message, Next};

/// What comes of serving a machine.
///
/// Ours: docs/DECISIONS.md, Shared machines, Messages.
#[derive(Drop)]
pub enum Service<C> {
    /// Its first message was taken out. The machine is to be served again by the same token.
    Sent(Message<C>),
    /// It had no message: it was given a turn.
    Turned(Next),
}
