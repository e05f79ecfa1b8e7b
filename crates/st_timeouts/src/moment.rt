//! The moment at which a time-out is due.
ghost use Rattle.std.specs.Prelude.{◌≡◌, ◌+◌, nat_le};

use st_steps::Steps;
use std::sync::ledger::Ledger;

/// A moment at which something is due, in milliseconds. It is compared with the present by `reached` alone, which
/// counts.
#[derive(Clone, Copy)]
pub(crate) struct Moment {
    milliseconds: u64,
}

impl Moment {
    /// The moment of so many milliseconds.
    pub(crate) fn new(milliseconds: u64) -> Moment
        ensures { result ≡ record { milliseconds = milliseconds } }
    {
        Moment { milliseconds }
    }

    /// How many milliseconds it is. Of what is due nobody asks in this way: it serves lists and other moments.
    pub(crate) fn milliseconds(self) -> u64
        ensures { result ≡ self.milliseconds }
    {
        self.milliseconds
    }

    /// Says whether it has come at a moment, in milliseconds. That is one look.
    pub(crate) fn reached<L: Ledger>(self, now: u64, steps: &mut Steps<L>) -> bool
        ensures come { result ≡ nat_le self.milliseconds now }
        ensures looks { steps.new ≡ steps.old + 1 }
    {
        steps.tick();
        self.milliseconds <= now
    }
}
