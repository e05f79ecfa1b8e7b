//! The states of a connection.
ghost use Rattle.std.specs.Prelude.{◌≡◌, ⊤};

use std::alloc::AllocError;

/// How far the connection is, and who has it.
///
/// Manual: `state()`, a term of any form in `handle_event_function`.
#[derive(Copy, PartialEq, Eq)]
pub enum Link {
    /// It is not connected. Ours: the first state.
    Down,
    /// An attempt to connect is being made. Ours: after a `CheckOut`, a `Lost`, or a pause.
    Connecting,
    /// It is connected, and nobody has it. Ours: after `Connected` and `CheckIn`, and where the lease is over.
    Free,
    /// It is connected, and the client of this number has it. Ours: after a `CheckOut` that is answered.
    Busy(u32),
    /// An attempt has failed, and the next one is not made yet. Ours: after `Failed`.
    BackingOff,
}

// By hand: with a derived one each call at a machine of this module takes the prover longer.
impl Clone for Link {
    ghost is_clone = { λ it copy. copy ≡ it };

    ghost is_infallible = { λ it. ⊤ };

    fn clone(&self) -> Result<Link, AllocError> {
        Ok(*self)
    }
}
