//! The states of a door.
ghost use Rattle.std.specs.Prelude.{◌≡◌, ⊤};

use std::alloc::AllocError;

/// How far the door is open.
///
/// Manual: `state()`.
#[derive(Copy, Debug, PartialEq, Eq)]
pub enum Gap {
    /// It is open. Ours: the first state.
    Open,
    /// It is closing. Ours: after `Close`.
    Closing,
    /// It is closed. Ours: 1,000 milliseconds later.
    Shut,
}

// By hand: with a derived one each call at a machine of this module takes the prover longer.
impl Clone for Gap {
    ghost is_clone = { λ it copy. copy ≡ it };

    ghost is_infallible = { λ it. ⊤ };

    fn clone(&self) -> Result<Gap, AllocError> {
        Ok(*self)
    }
}
