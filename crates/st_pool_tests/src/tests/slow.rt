//! A gate at which targets wait a while.
ghost use Rattle.std.specs.Prelude.{◌≡◌};

use st_pool::{Gate, Token};
use std::alloc::{AllocError, Global};
use std::sync::Arc;
use std::thread;

/// A gate at which the token of each slot but the first waits a while before its turn.
#[derive(Drop)]
pub struct Slow;

impl Slow {
    /// Such a gate.
    pub fn new(alloc: Global) -> Result<Arc<Slow>, AllocError> {
        Ok(Arc::new(alloc, Slow)?)
    }
}

impl Gate for Slow {
    ghost moment = { λ now. now ≡ 5 };

    fn now(&self) -> u64 {
        5
    }

    fn before(&self, _worker: usize, token: Token) {
        if token.machine.slot != 0 {
            for _ in 0..200 {
                thread::yield_now();
            }
        }
    }

    fn after(&self, _worker: usize, _token: Token) {}
}
