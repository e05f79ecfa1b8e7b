//! A gate that counts turns, and at which one token may wait for another.
ghost use Rattle.std.specs.Prelude.{◌≡◌};

use super::mark::Mark;
use st_pool::{Gate, Token};
use std::alloc::{AllocError, Global};
use std::sync::Arc;
use std::sync::atomic::{AtomicU64, Ordering};
use std::thread;

/// How often one looks before one gives up waiting.
const LOOKS: u32 = 10_000_000;

/// It counts the turns that were made, and the moment is always the same. Where it is shut, the token of the slot 0 waits,
/// before each of its turns, until that of the slot 1 has had one.
#[derive(Drop)]
pub struct Turnstile {
    turns: AtomicU64,
    mark: Arc<Mark>,
    is_shut: bool,
}

impl Turnstile {
    /// No turn was made yet.
    pub fn new(
        alloc: Global,
        mark: &Arc<Mark>,
        is_shut: bool,
    ) -> Result<Arc<Turnstile>, AllocError> {
        let turnstile = Turnstile {
            turns: AtomicU64::new(0),
            mark: Arc::try_clone(mark)?,
            is_shut,
        };
        Ok(Arc::new(alloc, turnstile)?)
    }

    /// Waits until so many turns were made. `false`: it gave up.
    pub fn waits_for(&self, turns: u64) -> bool {
        for _ in 0..LOOKS {
            if self.turns.load(Ordering::SeqCst) >= turns {
                return true;
            }
            thread::yield_now();
        }
        false
    }
}

impl Gate for Turnstile {
    ghost moment = { λ now. now ≡ 5 };

    fn now(&self) -> u64 {
        5
    }

    fn before(&self, _worker: usize, token: Token) {
        if self.is_shut && token.machine.slot == 0 {
            self.mark.wait();
        }
    }

    fn after(&self, _worker: usize, token: Token) {
        self.turns.fetch_add(1, Ordering::SeqCst);
        if self.is_shut && token.machine.slot == 1 {
            self.mark.make();
        }
    }
}
