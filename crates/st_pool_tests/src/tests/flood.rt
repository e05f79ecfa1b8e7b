//! A machine that wakes many others, none of which rests.
use super::counted;
use st_pool::{Hand, Machines, Token};
use std::alloc::{AllocError, Global};
use std::sync::Arc;
use std::sync::atomic::{AtomicU64, Ordering};

/// The machine in slot 0 wakes one other machine in each turn, up to a number of them. No machine rests.
#[derive(Drop)]
pub struct Flood {
    woken: AtomicU64,
    most: u64,
    served_at: AtomicU64,
}

impl Flood {
    /// None was woken yet.
    pub fn new(alloc: Global, most: u64) -> Result<Arc<Flood>, AllocError> {
        let flood = Flood {
            woken: AtomicU64::new(0),
            most,
            served_at: AtomicU64::new(0),
        };
        Ok(Arc::new(alloc, flood)?)
    }

    /// How many machines were woken.
    pub fn woken(&self) -> u64 {
        self.woken.load(Ordering::SeqCst)
    }

    /// How many machines were woken when the first of them had a turn.
    pub fn served_at(&self) -> u64 {
        self.served_at.load(Ordering::SeqCst)
    }
}

impl Machines for Flood {
    ghost use Rattle.std.specs.Prelude.{◌≡◌, IfSome};

    type Content = u64;

    ghost served = { λ token now answer. IfSome answer (λ back. back ≡ token) };

    fn turn(&self, token: Token, _now: u64, hand: &mut Hand<u64>) -> Option<Token> {
        let woken = self.woken();
        if token.machine.slot != 0 && self.served_at() == 0 {
            self.served_at.store(woken, Ordering::SeqCst);
        }
        if token.machine.slot == 0 && woken < self.most {
            self.woken.store(woken + 1, Ordering::SeqCst);
            hand.woken = Some(counted::token((woken + 1) as usize));
        }
        Some(token)
    }
}
