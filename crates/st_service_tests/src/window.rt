//! Whether a clerk's window is open.
ghost use Rattle.std.specs.Prelude.{◌≡◌, ⊤};

use std::alloc::AllocError;

/// Whether a clerk's window is open. While it is shut, sums wait.
#[derive(Copy, Debug, PartialEq, Eq)]
pub enum Window {
    Open,
    Shut,
}

// By hand: with a derived one each call at a machine of this module takes the prover longer.
impl Clone for Window {
    ghost is_clone = { λ it copy. copy ≡ it };

    ghost is_infallible = { λ it. ⊤ };

    fn clone(&self) -> Result<Window, AllocError> {
        Ok(*self)
    }
}
