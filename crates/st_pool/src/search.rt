//! A worker that looks on before it sleeps.
use crate::pool_state::PoolState;
use std::hint::spin_loop;
use std::thread;

/// So many times a worker that found nothing looks again before it sleeps.
const LOOKS: u8 = 150;

/// Before each of the last of these, other threads may run.
const YIELDS: u8 = 10;

/// How often a worker still looks before it sleeps. While it does, nobody wakes another worker: what was put meanwhile is
/// found by it, by another that searches, or by the one that the last of them wakes when it finds a token.
#[derive(Drop)]
pub struct Search {
    left: u8,
}

impl Search {
    /// It does not search.
    pub fn new() -> Search {
        Search { left: 0 }
    }

    /// The worker was woken, or found nothing: it searches from now on, unless as many do as may. Answers whether it does.
    pub fn begin(&mut self, state: &PoolState) -> bool {
        if self.left == 0 && state.begin_search() {
            self.left = LOOKS;
        }
        self.left > 0
    }

    /// The worker found nothing. `true`: it is to look again. `false`: it is to sleep.
    pub fn goes_on(&mut self, state: &PoolState) -> bool {
        if self.left == 0 {
            return self.begin(state);
        }
        self.left -= 1;
        if self.left == 0 {
            state.end_search();
            return false;
        }
        if self.left < YIELDS {
            thread::yield_now();
        } else {
            spin_loop();
        }
        true
    }

    /// The worker found a token.
    pub fn end(&mut self, state: &PoolState) {
        if self.left > 0 {
            self.left = 0;
            state.end_search_with_token();
        }
    }
}
