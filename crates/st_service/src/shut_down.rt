//! What a service leaves that was shut down.
use st_hall::Undelivered;
use st_pool::Message;
use std::alloc::Global;

/// What a service leaves that was shut down. Counts stay at 2^64 - 1.
///
/// Ours: docs/DECISIONS.md, Services.
#[derive(Drop)]
pub struct ShutDown<C> {
    /// How often a machine was served: by the workers, of which each slice counts, and then by the shutting down itself.
    pub turns: u64,
    /// How many ticks the ticker made.
    pub ticks: u64,
    /// How many machines were stopped by it; the others had ended.
    pub stopped: u64,
    /// How many machines could not be stopped, since their numbers are used up.
    pub unstopped: u64,
    /// How many events waited at the machines that were stopped.
    pub events: u64,
    /// The messages that were sent and not delivered, since their senders were not served to the end.
    pub messages: Vec<Message<C>>,
    /// How many messages could not be delivered in the service's life, by why.
    pub undelivered: Undelivered,
}

impl<C> ShutDown<C> {
    /// Nothing yet. It takes no memory.
    pub(crate) fn new(alloc: Global, undelivered: Undelivered) -> ShutDown<C> {
        ShutDown {
            turns: 0,
            ticks: 0,
            stopped: 0,
            unstopped: 0,
            events: 0,
            messages: Vec::new(alloc),
            undelivered,
        }
    }
}
