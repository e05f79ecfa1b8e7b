//! A gate at which each token waits for the next.
ghost use Rattle.std.specs.Prelude.{◌≡◌};

use super::counted::zeros;
use st_pool::{Gate, Token};
use std::alloc::{AllocError, Global};
use std::sync::Arc;
use std::sync::atomic::{AtomicU64, Ordering};
use std::thread;

/// How often one looks before one gives up waiting.
const LOOKS: u32 = 10_000_000;

/// Waits until a number is not zero. `false`: it gave up. Who is patient lets other threads run after each look, so that
/// on a busy machine it does not give up before those had their time.
pub fn waits_for(number: &AtomicU64, is_patient: bool) -> bool {
    for look in 0..LOOKS {
        if number.load(Ordering::SeqCst) != 0 {
            return true;
        }
        if is_patient || look % 10_000 == 9_999 {
            thread::yield_now();
        }
    }
    false
}

/// The token of each slot waits, before its turn, until that of the next slot has had its turn. So all of them are served
/// at once.
#[derive(Drop)]
pub struct Chain {
    served: Vec<AtomicU64>,
    gave_up: AtomicU64,
    is_patient: bool,
}

impl Chain {
    /// For tokens of the slots from 0 on. That of the last waits for none.
    pub fn new(alloc: Global, count: usize, is_patient: bool) -> Result<Arc<Chain>, AllocError> {
        let chain = Chain {
            served: zeros(alloc, count)?,
            gave_up: AtomicU64::new(0),
            is_patient,
        };
        Ok(Arc::new(alloc, chain)?)
    }

    /// No token has had its turn yet.
    pub fn begin_anew(&self) {
        for served in &self.served {
            served.store(0, Ordering::SeqCst);
        }
    }

    /// How often a token waited in vain.
    pub fn gave_up(&self) -> u64 {
        self.gave_up.load(Ordering::SeqCst)
    }
}

impl Gate for Chain {
    ghost moment = { λ now. now ≡ 5 };

    fn now(&self) -> u64 {
        5
    }

    fn before(&self, _worker: usize, token: Token) {
        if let Some(next) = self.served.get(token.machine.slot.saturating_add(1)) {
            if !waits_for(next, self.is_patient) {
                self.gave_up.fetch_add(1, Ordering::SeqCst);
            }
        }
    }

    fn after(&self, _worker: usize, token: Token) {
        if let Some(served) = self.served.get(token.machine.slot) {
            served.store(1, Ordering::SeqCst);
        }
    }
}
