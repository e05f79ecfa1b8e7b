//! A local run queue from which another worker takes.
use crate::queue::Queue;
use st_runq::{Lane, PutRefused, Thief, Token};
use std::alloc::{AllocError, Global};

/// A local run queue: its worker puts, and a thief takes.
#[derive(Drop)]
pub struct RobbedQueue {
    lane: Lane,
    thief: Thief,
}

impl RobbedQueue {
    /// Makes one with no token.
    pub fn new(alloc: Global) -> Result<RobbedQueue, AllocError> {
        let lane = Lane::new(alloc)?;
        let thief = lane.thief()?;
        Ok(RobbedQueue { lane, thief })
    }
}

impl Queue for RobbedQueue {
    fn put(&mut self, token: Token) -> Result<(), PutRefused> {
        self.lane.put_local(token)
    }

    fn take(&mut self) -> Option<Token> {
        self.thief.steal()
    }
}
