//! The shared run queue, with one end that takes.
use crate::queue::Queue;
use st_runq::{Inlet, PutRefused, Shared, Token};
use std::alloc::{AllocError, Global};
use std::sync::Wait;

/// A shared run queue: its end that puts, and one that takes.
#[derive(Drop)]
pub struct SharedQueue<'a, R: Wait> {
    rt: &'a R,
    inlet: Inlet,
    shared: Shared,
}

impl<'a, R: Wait> SharedQueue<'a, R> {
    /// Makes one with no token.
    pub fn new(rt: &'a R, alloc: Global) -> Result<SharedQueue<'a, R>, AllocError> {
        let inlet = Inlet::new(alloc)?;
        let shared = inlet.taker()?;
        Ok(SharedQueue { rt, inlet, shared })
    }
}

impl<R: Wait> Queue for SharedQueue<'_, R> {
    fn put(&mut self, token: Token) -> Result<(), PutRefused> {
        self.inlet.put_shared(self.rt, token)
    }

    fn take(&mut self) -> Option<Token> {
        self.shared.take_shared(self.rt)
    }
}
