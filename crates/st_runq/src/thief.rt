//! What takes tokens from another worker's run queue.
ghost use Rattle.crossbeam_deque.specs.Handles.{IsPassOf, stealer_deque};

use crate::seen::Seen;
use crate::steps::{TakenOnce, Takes};
use crossbeam_deque::{Pass, Steal, Stealer};
use st_events::Token;
use std::alloc::Global;

/// Takes tokens from the local run queue of another worker.
#[derive(Drop)]
pub struct Thief {
    stealer: Stealer<Token, Global, Seen, TakenOnce>,
    pass: Pass<Token, Seen>,
    ghost belongs: { IsPassOf (stealer_deque stealer) pass },
}

impl Thief {
    ghost use Rattle.std.specs.Prelude.{◌≡◌, ℕ, [], ◌∷◌, ◌++◌, IfSome, IfNone};
    ghost use Rattle.st_runq.specs.Ends.{robbed_of, stolen_of};

    /// A thief of this run queue, which has taken nothing.
    #[tactic(auto, using(crate::proofs::StepLemmas::admits))]
    pub(crate) fn new(stealer: Stealer<Token, Global, Seen, TakenOnce>) -> Thief
        ensures { (robbed_of result ≡ stealer_deque stealer) × (stolen_of result ≡ []) }
    {
        let pass = stealer.pass();
        Thief { stealer, pass }
    }

    /// Takes the first token: it is recorded as taken, with the place at which it was put. It never waits.
    ///
    /// `None`: there was none, or another was quicker, and nothing changes.
    #[tactic(auto, using(crate::proofs::StepLemmas::takes))]
    pub fn steal(&mut self) -> Option<Token>
        ensures same { robbed_of self.new ≡ robbed_of self.old }
        ensures some { IfSome result (λ token. (place : ℕ)
            × (stolen_of self.new ≡ stolen_of self.old ++ (place, token) ∷ [])) }

        ensures none { IfNone result (stolen_of self.new ≡ stolen_of self.old) }
    {
        match self.stealer.steal_as::<Takes>(&mut self.pass) {
            Steal::Success(token) => Some(token),
            Steal::Empty => None,
            Steal::Retry => None,
        }
    }
}
