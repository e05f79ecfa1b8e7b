//! The rule of the table behind a lock, and what each step on it tells the holder that makes it.
ghost use Rattle.std.specs.Prelude.{◌≡◌, []};
ghost use Rattle.st_claim_lock.specs.Rule.{IsTied, TakesFromHome, idle};

use crate::hold::Hold;
use crate::tie::{Claimed, Tie};
use atomic_table::{Play, TableRule};
use std::marker::PhantomData;

/// Each holder's claim fits the value, and one holder at most has it out.
pub struct ByTie<P> {
    of: PhantomData<P>,
}

impl<T, V, P: Tie<T, V>> TableRule<Option<T>, Hold<T, V>, ()> for ByTie<P> {
    ghost holds = { λ _ state. IsTied P.fits state };

    ghost first = { λ _. idle P.first };
}

/// The value was taken where it was at home.
pub struct Takes<P> {
    of: PhantomData<P>,
}

impl<T, V, P: Tie<T, V>> Play<Option<T>, Hold<T, V>> for Takes<P> {
    ghost then = { λ step old found new. TakesFromHome P.fits old found new };
}

/// The value came home, and the holder claims what was picked.
pub struct Gives<J> {
    of: PhantomData<J>,
}

impl<T, V, J: Claimed<V>> Play<Option<T>, Hold<T, V>> for Gives<J> {
    ghost then = { λ step old found new. new ≡ (idle J.claim, []) };
}

/// The value came home, and the holder claims what it claimed.
pub struct GivesBack;

impl<T, V> Play<Option<T>, Hold<T, V>> for GivesBack {
    ghost then = { λ step old found new. new ≡ (idle old.0.claim, []) };
}
