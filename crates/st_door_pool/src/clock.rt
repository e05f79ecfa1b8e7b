//! The clock of a script's workers.
ghost use Rattle.std.specs.Prelude.{◌<◌, ◌^◌};

use crate::moment_rule::MomentRule;
use st_pool::{Gate, Token};
use std::sync::atomic::{AtomicIn, Ordering};

/// The moment of a script, in milliseconds, below 2^63, at which its workers make turns. It changes only while they rest.
#[derive(Drop)]
pub(crate) struct Clock {
    moment: AtomicIn<MomentRule>,
}

impl Clock {
    /// The moment 0.
    pub(crate) fn new() -> Clock {
        Clock {
            moment: AtomicIn::new(0),
        }
    }

    /// Goes to a moment.
    pub(crate) fn set(&self, moment: u64)
        requires { moment < 2 ^ 63 }
    {
        self.moment.store(moment, Ordering::SeqCst);
    }
}

impl Gate for Clock {
    ghost moment = { λ now. now < 2 ^ 63 };

    fn now(&self) -> u64 {
        self.moment.load(Ordering::SeqCst)
    }

    fn before(&self, _worker: usize, _token: Token) {}

    fn after(&self, _worker: usize, _token: Token) {}
}
