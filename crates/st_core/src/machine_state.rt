//! A machine as a plain value.

use st_agenda::Schedule;
use st_events::{MachineId, PlainList, Reason};
use st_outbox::Outbox;
use st_requests::Request;

/// A machine as a plain value, without its callback module: what contracts speak of, and what a snapshot is.
///
/// Manual: the introduction, on the state, the data and the event queue.
#[derive(Debug, PartialEq, Eq, Drop)]
pub struct MachineState<S, D, C> {
    /// Its id.
    pub id: MachineId,
    /// Its state.
    pub state: S,
    /// Its data.
    pub data: D,
    /// What waits at it, what is postponed, which time-outs run, and the number that its next event gets.
    pub schedule: Schedule<C>,
    /// The requests that are open, and the replies and reasons that are kept, in the order in which they were opened.
    pub requests: PlainList<Request<C>>,
    /// The messages that it has sent and that were not taken out yet, and the number that its next message gets.
    pub outbox: Outbox<C>,
    /// The latest moment that it has seen, in milliseconds.
    pub latest: u64,
    /// The reason and the last word, once it has ended.
    pub ended: Option<(Reason, u32)>,
}
