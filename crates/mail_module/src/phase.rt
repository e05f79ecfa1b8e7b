//! The states of a mailbox.
ghost use Rattle.std.specs.Prelude.{◌≡◌, ⊤};

use crate::Take;
use std::alloc::AllocError;

/// Where the protocol is.
///
/// Manual: `state()`, a term of any form in `handle_event_function`.
#[derive(Copy, PartialEq, Eq)]
pub enum Phase {
    /// The client was greeted: its name is wanted. Ours: the first state.
    Greeted,
    /// The client has a name: its PIN is wanted. Ours: after `user NAME`.
    Named,
    /// The mailbox is open. Ours: after the right PIN.
    Open,
    /// A mail is being taken, and commands wait. Ours: after `take N`.
    Busy(Take),
    /// All is said, and the machine is about to stop. Ours: after the last word to the client.
    Closing,
}

// By hand: with a derived one each call at a machine of this module takes the prover longer.
impl Clone for Phase {
    ghost is_clone = { λ it copy. copy ≡ it };

    ghost is_infallible = { λ it. ⊤ };

    fn clone(&self) -> Result<Phase, AllocError> {
        Ok(*self)
    }
}
