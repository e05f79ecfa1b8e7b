//! What a list of actions asks for.

use st_events::{Inserts, Replies, Sends, Settings};

/// What a list of actions asks for, by kinds: the replies, whether the event is postponed, the events to
/// be inserted, what is asked of timers, and what is to be sent.
///
/// Manual: `action()`.
#[derive(Drop)]
pub struct Planned<C> {
    /// In the order in which they are sent.
    pub replies: Replies<C>,
    /// Whether the event is postponed.
    pub postpone: bool,
    /// In the order in which they are handled.
    pub inserts: Inserts<C>,
    /// Of each timer the last that is asked of it, in the order of these.
    pub requests: Settings<C>,
    /// In the order in which they are sent.
    pub sends: Sends<C>,
}
