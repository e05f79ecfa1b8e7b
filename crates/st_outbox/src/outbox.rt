//! What a machine has sent, as a plain value.

use st_events::{Message, PlainList};

/// The messages that one machine has sent and that were not taken out yet, and the number that its next message
/// gets.
///
/// Ours: docs/DECISIONS.md, Messages.
#[derive(Debug, PartialEq, Eq, Drop)]
pub struct Outbox<C> {
    /// In the order in which they were sent.
    pub messages: PlainList<Message<C>>,
    /// The number that the next message gets, from 1 on.
    pub next_number: u64,
}
