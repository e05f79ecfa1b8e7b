//! The shared run queue: an end that takes.
ghost use Rattle.std.specs.Arc.{arc_value};
ghost use Rattle.crossbeam_deque.specs.Injected.{IsInjectorPassOf};

use crate::seen::Seen;
use crate::steps::{TakenOnce, Takes};
use crossbeam_deque::{Injector, InjectorPass, Steal};
use st_events::Token;
use std::alloc::Global;
use std::sync::{Arc, Wait};

/// Takes tokens from the shared run queue.
#[derive(Drop)]
pub struct Shared {
    queue: Arc<Injector<Token, Global, Seen, TakenOnce>, Global>,
    pass: InjectorPass<Token, Seen>,
    ghost belongs: { IsInjectorPassOf (arc_value queue) pass },
}

impl Shared {
    ghost use Rattle.std.specs.Prelude.{◌≡◌, ℕ, [], ◌∷◌, ◌++◌, IfSome, IfNone};
    ghost use Rattle.st_runq.specs.Ends.{source_of, fetched_of};

    /// A taker of this run queue, which has taken nothing.
    #[tactic(auto, using(crate::proofs::StepLemmas::admits))]
    pub(crate) fn new(queue: Arc<Injector<Token, Global, Seen, TakenOnce>, Global>) -> Shared
        ensures { (source_of result ≡ arc_value queue) × (fetched_of result ≡ []) }
    {
        let pass = queue.pass();
        Shared { queue, pass }
    }

    /// Takes the first token: it is recorded as taken, with the place at which it was put. Where another was quicker, it
    /// tries again, and it may wait for one that is in the midst of a step on this run queue.
    ///
    /// `None`: at some moment of the call there was none, and nothing changes. A worker that goes to sleep rests on that.
    #[tactic(auto, using(crate::proofs::StepLemmas::takes))]
    pub fn take_shared<R: Wait>(&mut self, rt: &R) -> Option<Token>
        ensures same { source_of self.new ≡ source_of self.old }
        ensures some { IfSome result (λ token. (place : ℕ)
            × (fetched_of self.new ≡ fetched_of self.old ++ (place, token) ∷ [])) }

        ensures none { IfNone result (fetched_of self.new ≡ fetched_of self.old) }
    {
        for _ in rt.forever() {
            match self.queue.steal_as::<Takes, R>(rt, &mut self.pass) {
                Steal::Success(token) => return Some(token),
                Steal::Empty => return None,
                Steal::Retry => {}
            }
        }
        unreachable!()
    }
}
