//! The states of a cabin.
ghost use Rattle.std.specs.Prelude.{◌≡◌, ⊤};

use std::alloc::AllocError;

/// What the cabin does.
///
/// Manual: `state()`.
#[derive(Copy, Debug, PartialEq, Eq)]
pub enum Motion {
    /// It is at a floor, and the door is open. Ours: the first state.
    Resting,
    /// It is to leave, and waits for the door to be closed. Ours: after `Go`.
    Leaving,
    /// It moves, or waits at its floor for the door to be open. Ours: after `Closed`.
    Moving,
    /// It was halted, and stays so. Ours: after `Halt`.
    Stopped,
}

// By hand: with a derived one each call at a machine of this module takes the prover longer.
impl Clone for Motion {
    ghost is_clone = { λ it copy. copy ≡ it };

    ghost is_infallible = { λ it. ⊤ };

    fn clone(&self) -> Result<Motion, AllocError> {
        Ok(*self)
    }
}
