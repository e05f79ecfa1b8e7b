//! The state of a bell.
ghost use Rattle.std.specs.Prelude.{◌≡◌, ⊤};

use std::alloc::AllocError;

/// Whether the bell rings.
#[derive(Copy, Debug, PartialEq, Eq)]
pub enum Tone {
    Quiet,
    Ringing,
}

// By hand: with a derived one each call at a machine of this module takes the prover longer.
impl Clone for Tone {
    ghost is_clone = { λ it copy. copy ≡ it };

    ghost is_infallible = { λ it. ⊤ };

    fn clone(&self) -> Result<Tone, AllocError> {
        Ok(*self)
    }
}
