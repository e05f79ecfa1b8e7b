//! Machines and a gate in one, which note what they are told.
ghost use Rattle.std.specs.Prelude.{◌≡◌};

use st_pool::{Gate, Hand, Machines, Token};
use std::sync::atomic::{AtomicU64, Ordering};

/// Notes how many turns were made, the moment of the last one, and the worker that was named before it and behind it. Each
/// machine rests after its turn.
#[derive(Drop)]
pub struct Noted {
    turns: AtomicU64,
    moment: AtomicU64,
    before: AtomicU64,
    after: AtomicU64,
}

impl Noted {
    /// No turn was made, and nothing was told yet: all else is 99.
    pub fn new() -> Noted {
        Noted {
            turns: AtomicU64::new(0),
            moment: AtomicU64::new(99),
            before: AtomicU64::new(99),
            after: AtomicU64::new(99),
        }
    }

    /// How many turns were made, the moment of the last one, and the workers that were named before it and behind it.
    pub fn told(&self) -> (u64, u64, u64, u64) {
        (
            self.turns.load(Ordering::SeqCst),
            self.moment.load(Ordering::SeqCst),
            self.before.load(Ordering::SeqCst),
            self.after.load(Ordering::SeqCst),
        )
    }
}

impl Gate for Noted {
    ghost moment = { λ now. now ≡ 7 };

    fn now(&self) -> u64 {
        7
    }

    fn before(&self, worker: usize, _token: Token) {
        self.before.store(worker as u64, Ordering::SeqCst);
    }

    fn after(&self, worker: usize, _token: Token) {
        self.after.store(worker as u64, Ordering::SeqCst);
    }
}

impl Machines for Noted {
    type Content = u64;

    ghost use Rattle.std.specs.Prelude.{None};

    ghost served = { λ token now answer. answer ≡ None };

    fn turn(&self, _token: Token, now: u64, hand: &mut Hand<u64>) -> Option<Token> {
        hand.message = None;
        self.turns.fetch_add(1, Ordering::SeqCst);
        self.moment.store(now, Ordering::SeqCst);
        None
    }
}
