//! A gate at which nobody waits.
ghost use Rattle.std.specs.Prelude.{◌≡◌};

use st_pool::{Gate, Token};
use std::alloc::{AllocError, Global};
use std::sync::Arc;

/// A gate at which nobody waits, and the moment is always the same.
#[derive(Drop)]
pub struct Silent;

impl Silent {
    /// Such a gate.
    pub fn new(alloc: Global) -> Result<Arc<Silent>, AllocError> {
        Ok(Arc::new(alloc, Silent)?)
    }
}

impl Gate for Silent {
    ghost moment = { λ now. now ≡ 5 };

    fn now(&self) -> u64 {
        5
    }

    fn before(&self, _worker: usize, _token: Token) {}

    fn after(&self, _worker: usize, _token: Token) {}
}
