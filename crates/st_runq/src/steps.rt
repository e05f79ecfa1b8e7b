//! The rule of a run queue, and what each step on one tells the end that makes it.
ghost use Rattle.std.specs.Prelude.{◌≡◌, ℕ, [], ◌++◌};
ghost use Rattle.st_runq.specs.RunQueue.{QueueRule, seen_of, numbered, EachStands};

use crate::seen::Seen;
use crossbeam_deque::protocol::{Outcome, Protocol};
use st_events::Token;

/// Each place that has left the queue was taken once.
pub struct TakenOnce;

impl Protocol<Token, Seen> for TakenOnce {
    ghost holds = { QueueRule };

    ghost first = { seen_of [] [] };

    ghost guest = { seen_of [] [] };
}

/// The token joined what this end has put.
pub struct Puts;

impl Outcome<Token, Seen> for Puts {
    ghost then = { λ old tokens new. (new.put ≡ old.put ++ tokens) × (new.taken ≡ old.taken) };
}

/// The token joined what this end has taken, with its place.
pub struct Takes;

impl Outcome<Token, Seen> for Takes {
    ghost then = { λ old tokens new. (new.put ≡ old.put)
        × ((place : ℕ) × (new.taken ≡ old.taken ++ numbered place tokens)) };
}

/// The same for the end that puts, which knows what it has put at the place.
pub struct TakesOwn;

impl Outcome<Token, Seen> for TakesOwn {
    ghost then = { λ old tokens new. (new.put ≡ old.put)
        × ((place : ℕ) × (new.taken ≡ old.taken ++ numbered place tokens)
        × EachStands old.put (numbered place tokens)) };
}
