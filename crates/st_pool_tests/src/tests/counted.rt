//! Machines that count their turns.
use st_pool::{Hand, MachineId, Machines, Token};
use std::alloc::{AllocError, Global};
use std::sync::Arc;
use std::sync::atomic::{AtomicU64, Ordering};

/// The token of the machine in a slot.
pub fn token(slot: usize) -> Token {
    Token {
        machine: MachineId { slot, serial: 1 },
        wake: 7,
    }
}

/// Numbers that threads share, all zero.
pub fn zeros(alloc: Global, count: usize) -> Result<Vec<AtomicU64>, AllocError> {
    let mut all = Vec::new(alloc);
    for _ in 0..count {
        all.push(AtomicU64::new(0))?;
    }
    Ok(all)
}

/// Machines in the slots from 0 on, which count their turns. Each has so many to make, and then rests.
#[derive(Drop)]
pub struct Counted {
    turns: Vec<AtomicU64>,
    each: u64,
}

impl Counted {
    /// So many machines, which have made no turn.
    pub fn new(alloc: Global, count: usize, each: u64) -> Result<Arc<Counted>, AllocError> {
        let turns = zeros(alloc, count)?;
        Ok(Arc::new(alloc, Counted { turns, each })?)
    }

    /// So many machines that never rest.
    pub fn endless(alloc: Global, count: usize) -> Result<Arc<Counted>, AllocError> {
        Counted::new(alloc, count, u64::MAX)
    }

    /// How many turns the machine in a slot has made.
    pub fn turns_of(&self, slot: usize) -> u64 {
        match self.turns.get(slot) {
            Some(turns) => turns.load(Ordering::SeqCst),
            None => 0,
        }
    }

    /// All have their turns to make anew.
    pub fn begin_anew(&self) {
        for turns in &self.turns {
            turns.store(0, Ordering::SeqCst);
        }
    }
}

impl Machines for Counted {
    type Content = u64;

    ghost use Rattle.std.specs.Prelude.{◌≡◌, IfSome};

    ghost served = { λ token now answer. IfSome answer (λ back. back ≡ token) };

    fn turn(&self, token: Token, _now: u64, hand: &mut Hand<u64>) -> Option<Token> {
        if hand.message.is_some() {
            return Some(token);
        }
        let turns = self.turns.get(token.machine.slot)?;
        if turns.fetch_add(1, Ordering::SeqCst).saturating_add(1) < self.each {
            Some(token)
        } else {
            None
        }
    }
}
