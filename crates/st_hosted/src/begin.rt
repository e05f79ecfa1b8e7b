//! What a start is given.

use crate::Payload;
use st_events::{Action, PlainList};

/// What a host answers to a start: the first state and data, which are its numbers, and the first actions.
///
/// Manual: `Module:init/1`, `init_result()`.
#[derive(Drop)]
pub struct Begin {
    /// The first state.
    pub state: u64,
    /// The first data.
    pub data: u64,
    /// What is asked for as the machine starts.
    pub actions: PlainList<Action<Payload>>,
}
