//! The states of a table.
ghost use Rattle.std.specs.Prelude.{◌≡◌, ⊤};

use std::alloc::AllocError;

/// A state, by its number in the table, from 0 on. One of a number that the table does not have has no rules of its own.
#[derive(Copy, PartialEq, Eq)]
pub struct Place {
    /// The number.
    pub number: u32,
}

// By hand: with a derived one each call at a machine of this module takes the prover longer.
impl Clone for Place {
    ghost is_clone = { λ it copy. copy ≡ it };

    ghost is_infallible = { λ it. ⊤ };

    fn clone(&self) -> Result<Place, AllocError> {
        Ok(*self)
    }
}
