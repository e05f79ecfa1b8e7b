//! The local run queue of a worker: its own end.
ghost use Rattle.std.specs.Prelude.{◌≡◌, ◌≤◌, length};
ghost use Rattle.crossbeam_deque.specs.Handles.{worker_capacity, worker_flavor, worker_index, worker_port, worker_view};

use crate::seen::Seen;
use crate::steps::{Puts, TakenOnce, TakesOwn};
use crate::{PutRefused, Thief};
use crossbeam_deque::Worker;
use st_events::Token;
use std::alloc::{AllocError, Global};

/// For how many tokens a new run queue has room.
const ROOM: usize = 32;

/// The owner's end of a local run queue: its worker puts tokens and takes them, and others steal them.
#[derive(Drop)]
pub struct Lane {
    deque: Worker<Token, Global, Seen, TakenOnce>,
    ghost puts: { worker_port deque ≡ 0 },
    ghost in_order: { worker_flavor deque ≡ 0 },
    ghost room: { 32 ≤ worker_capacity deque },
    ghost counted: { worker_index deque ≤ length (worker_view deque).put },
}

impl Lane {
    ghost use Rattle.std.specs.Prelude.{ℕ, [], ◌∷◌, ◌++◌, Some, slice_get, IfSome, IfNone, IfOk, IfErr, OnOk};
    ghost use Rattle.st_runq.specs.Ends.{lane_of, put_of, taken_of, robbed_of, stolen_of};

    /// Makes a run queue with no token, and room for 32.
    ///
    /// Where there is no memory for it, none is made.
    pub fn new(alloc: Global) -> Result<Lane, AllocError>
        ensures { IfOk result (λ lane. (put_of lane ≡ []) × (taken_of lane ≡ [])) }
    {
        let deque = Worker::fifo_as(alloc, ROOM)?;
        Ok(Lane { deque })
    }

    /// Puts a token behind the others. It never waits.
    ///
    /// Where there is no room and no memory for more, the token comes back and the run queue stays as it was. The first
    /// 32 puts are never refused.
    #[tactic(auto, using(crate::proofs::StepLemmas::puts))]
    pub fn put_local(&mut self, token: Token) -> Result<(), PutRefused>
        ensures same { (lane_of self.new ≡ lane_of self.old) × (taken_of self.new ≡ taken_of self.old) }
        ensures put { OnOk result (put_of self.new ≡ put_of self.old ++ token ∷ []) }

        ensures refused { IfErr result (λ e. (e.0 ≡ token) × (put_of self.new ≡ put_of self.old)) }
        ensures room { IfErr result (λ _. 32 ≤ length (put_of self.old)) }
    {
        match self.deque.push_as::<Puts>(token) {
            Ok(()) => Ok(()),
            Err(token) => Err(PutRefused(token)),
        }
    }

    /// Takes the first token: it was put at some place, and is recorded as taken from there. It never waits.
    ///
    /// `None`: there was none, or thieves were quicker, and nothing changes.
    #[tactic(auto, using(crate::proofs::StepLemmas::takes_own))]
    pub fn take_local(&mut self) -> Option<Token>
        ensures same { (lane_of self.new ≡ lane_of self.old) × (put_of self.new ≡ put_of self.old) }
        ensures some { IfSome result (λ token. (place : ℕ)
            × (taken_of self.new ≡ taken_of self.old ++ (place, token) ∷ [])
            × (slice_get (put_of self.old) place ≡ Some token)) }

        ensures none { IfNone result (taken_of self.new ≡ taken_of self.old) }
    {
        self.deque.pop_as::<TakesOwn>()
    }

    /// Makes a thief of this run queue, for another worker. It has taken nothing.
    ///
    /// There may be any number of them. `Err`: as many as can be counted are there already, and none is made.
    pub fn thief(&self) -> Result<Thief, AllocError>
        ensures { IfOk result (λ thief. (robbed_of thief ≡ lane_of self.now) × (stolen_of thief ≡ [])) }
    {
        let stealer = self.deque.stealer()?;
        Ok(Thief::new(stealer))
    }
}
