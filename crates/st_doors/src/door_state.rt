//! The states of a door.
ghost use Rattle.std.specs.Prelude.{◌≡◌, ⊤};

use std::alloc::AllocError;

/// The state of a door.
#[derive(Copy, Debug, PartialEq, Eq)]
pub enum DoorState {
    /// Its buttons count.
    Locked,
    /// Its buttons wait until it is locked again.
    Open,
}

// By hand: with a derived one each call at a machine of this module takes the prover longer.
impl Clone for DoorState {
    ghost is_clone = { λ it copy. copy ≡ it };

    ghost is_infallible = { λ it. ⊤ };

    fn clone(&self) -> Result<DoorState, AllocError> {
        Ok(*self)
    }
}
