//! What a start or a turn did.

use crate::{Calls, Done};
use st_events::{Decision, PlainList, Tag, Timer};

/// What a start or a turn did.
///
/// Ours: docs/TRANSITIONS.md, A turn.
#[derive(Debug, PartialEq, Eq, Drop)]
pub struct Report<S> {
    /// The number of the event that was handled; a start has none.
    pub event: Option<u64>,
    /// How it ended.
    pub done: Done,
    /// The callbacks that were made, in order; the `init` of a start is not among them.
    pub calls: Calls<S>,
    /// The state before it; of a start the one that `init` answered.
    pub before: S,
    /// The state after it.
    pub after: S,
    /// The requests whose reply was taken, in order.
    pub replied: PlainList<Tag>,
    /// The numbers of the events that were inserted, in order.
    pub inserted: PlainList<u64>,
    /// The timers that were set, cancelled or updated, each with the last that was asked of it, in the order of these.
    pub set: PlainList<(Timer, Decision)>,
    /// The numbers of the messages that were sent, in order.
    pub sent: PlainList<u64>,
}
