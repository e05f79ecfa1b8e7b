//! A ring of machines that pass one piece of work round.
use super::counted;
use st_pool::{Hand, Machines, Token};
use std::alloc::{AllocError, Global};
use std::sync::Arc;
use std::sync::atomic::{AtomicU64, Ordering};

/// The machine in each slot wakes that of the next in its turn, and rests; the last one wakes the first. It ends after so
/// many turns.
#[derive(Drop)]
pub struct Ring {
    size: usize,
    left: AtomicU64,
}

impl Ring {
    /// A ring of so many machines, with no turn to make.
    pub fn new(alloc: Global, size: usize) -> Result<Arc<Ring>, AllocError> {
        let ring = Ring {
            size,
            left: AtomicU64::new(0),
        };
        Ok(Arc::new(alloc, ring)?)
    }

    /// So many turns are to be made.
    pub fn begin_anew(&self, turns: u64) {
        self.left.store(turns, Ordering::SeqCst);
    }

    /// How many turns are left.
    pub fn left(&self) -> u64 {
        self.left.load(Ordering::SeqCst)
    }
}

impl Machines for Ring {
    ghost use Rattle.std.specs.Prelude.{◌≡◌, None};

    type Content = u64;

    ghost served = { λ token now answer. answer ≡ None };

    fn turn(&self, token: Token, _now: u64, hand: &mut Hand<u64>) -> Option<Token> {
        hand.message = None;
        let left = self.left().saturating_sub(1);
        self.left.store(left, Ordering::SeqCst);
        if left > 0 {
            let next = token.machine.slot.saturating_add(1);
            hand.woken = Some(counted::token(if next < self.size { next } else { 0 }));
        }
        None
    }
}
