//! A gate at which two tokens meet after many turns.
ghost use Rattle.std.specs.Prelude.{◌≡◌};

use super::chain::waits_for;
use super::counted::zeros;
use st_pool::{Gate, Token};
use std::alloc::{AllocError, Global};
use std::sync::Arc;
use std::sync::atomic::{AtomicU64, Ordering};

/// The tokens of the slots 0 and 1 meet before a turn of some number: each waits until the other has come as far.
#[derive(Drop)]
pub struct Meeting {
    turns: Vec<AtomicU64>,
    come: Vec<AtomicU64>,
    at: u64,
    gave_up: AtomicU64,
}

impl Meeting {
    /// They meet before their turn of this number.
    pub fn new(alloc: Global, at: u64) -> Result<Arc<Meeting>, AllocError> {
        let meeting = Meeting {
            turns: zeros(alloc, 2)?,
            come: zeros(alloc, 2)?,
            at,
            gave_up: AtomicU64::new(0),
        };
        Ok(Arc::new(alloc, meeting)?)
    }

    /// How often one waited in vain.
    pub fn gave_up(&self) -> u64 {
        self.gave_up.load(Ordering::SeqCst)
    }

    /// The tokens have had no turn yet.
    pub fn begin_anew(&self) {
        for slot in 0..2 {
            if let (Some(turns), Some(come)) = (self.turns.get(slot), self.come.get(slot)) {
                turns.store(0, Ordering::SeqCst);
                come.store(0, Ordering::SeqCst);
            }
        }
    }

    /// Counts a turn of the token in a slot. Whether it meets the other before that turn.
    fn counts(&self, own: usize) -> bool {
        match self.turns.get(own) {
            Some(turns) => turns.fetch_add(1, Ordering::SeqCst).saturating_add(1) == self.at,
            None => false,
        }
    }

    /// The token in one slot waits until that in the other has come as far.
    fn meets(&self, own: usize, other: usize) {
        if let Some(come) = self.come.get(own) {
            come.store(1, Ordering::SeqCst);
        }
        if let Some(waited) = self.come.get(other) {
            if !waits_for(waited, true) {
                self.gave_up.fetch_add(1, Ordering::SeqCst);
            }
        }
    }
}

impl Gate for Meeting {
    ghost moment = { λ now. now ≡ 5 };

    fn now(&self) -> u64 {
        5
    }

    fn before(&self, _worker: usize, token: Token) {
        let own = token.machine.slot;
        if self.counts(own) {
            self.meets(own, if own == 0 { 1 } else { 0 });
        }
    }

    fn after(&self, _worker: usize, _token: Token) {}
}
