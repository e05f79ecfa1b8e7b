//! The rule of a counter, and what each step on one tells the endpoint that makes it.

use crate::seen::Seen;
use atomic_table::{Join, Play, Split, TableRule};
use std::marker::{Brand, PhantomData};

/// The word is the length of one history, of which each endpoint has seen a beginning.
pub struct OneHistory;

impl<T> TableRule<(), Seen<T>, ()> for OneHistory {
    ghost use Rattle.st_post_counter.specs.Counter.{CounterRule};
    ghost use Rattle.st_post_counter.specs.Steps.{seen_at_first};

    ghost holds = { λ _ state. CounterRule state.words state.views };

    ghost first = { λ _. seen_at_first };
}

/// Which posts an add adds. Each call picks them; they are a list, since there may be no value of `T` to begin with.
pub trait Addition<T> {
    ghost use Rattle.std.specs.Prelude.{List};

    ghost added: { List T };
}

impl<T> Addition<T> for Brand {
    ghost use Rattle.std.specs.Prelude.{[]};

    ghost added = { [] };
}

/// The machine's endpoint has seen the added posts too.
pub struct Adds<A> {
    of: PhantomData<A>,
}

impl<T, A: Addition<T>> Play<(), Seen<T>> for Adds<A> {
    ghost use Rattle.std.specs.Prelude.{◌≡◌};
    ghost use Rattle.st_post_counter.specs.Steps.{SeesAdded};

    ghost then = { λ step old found new. (new.1 ≡ old.1) × SeesAdded A.added old.0 new.0 };
}

/// A copy has seen what its original has seen.
pub struct Copies;

impl<T> Split<Seen<T>> for Copies {
    ghost use Rattle.st_post_counter.specs.Steps.{copy_of};

    ghost left = { λ seen. seen };

    ghost right = { copy_of };
}

/// An endpoint took in another, and has seen the longer of both lists.
pub struct TakesIn;

impl<T> Join<Seen<T>> for TakesIn {
    ghost use Rattle.std.specs.Prelude.{[]};
    ghost use Rattle.st_post_counter.specs.Seen.{part};
    ghost use Rattle.st_post_counter.specs.Steps.{joined_of};

    ghost both = { joined_of };

    ghost spent = { part [] };
}

/// Both lists of an endpoint that took in another are beginnings of the longer.
pub struct Compares;

impl<T> Play<(), Seen<T>> for Compares {
    ghost use Rattle.std.specs.Prelude.{◌≡◌};
    ghost use Rattle.st_post_counter.specs.Steps.{ComparesBoth};

    ghost then = { λ step old found new. (new.1 ≡ old.1) × ComparesBoth old.0 new.0 };
}
