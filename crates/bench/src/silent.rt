//! A gate at which nobody waits.
ghost use Rattle.std.specs.Prelude.{◌≡◌};

use st_pool::{Gate, Token};

/// A gate at which nobody waits, and the moment is always 0.
#[derive(Drop)]
pub struct Silent;

impl Gate for Silent {
    ghost moment = { λ now. now ≡ 0 };

    fn now(&self) -> u64 {
        0
    }

    fn before(&self, _worker: usize, _token: Token) {}

    fn after(&self, _worker: usize, _token: Token) {}
}
