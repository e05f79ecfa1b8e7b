//! The shared run queue: the end that puts.
ghost use Rattle.std.specs.Prelude.{◌≡◌};
ghost use Rattle.std.specs.Arc.{arc_value};
ghost use Rattle.crossbeam_deque.specs.Injected.{IsInjectorPassOf};

use crate::seen::Seen;
use crate::steps::{Puts, TakenOnce};
use crate::{PutRefused, Shared};
use crossbeam_deque::{Injector, InjectorPass};
use st_events::Token;
use std::alloc::{AllocError, Global};
use std::sync::{Arc, Wait};

/// The one end of a shared run queue that puts tokens.
#[derive(Drop)]
pub struct Inlet {
    queue: Arc<Injector<Token, Global, Seen, TakenOnce>, Global>,
    pass: InjectorPass<Token, Seen>,
    ghost belongs: { IsInjectorPassOf (arc_value queue) pass },
    ghost puts: { pass.id ≡ 0 },
}

impl Inlet {
    ghost use Rattle.std.specs.Prelude.{[], ◌∷◌, ◌++◌, IfOk, IfErr, OnOk};
    ghost use Rattle.st_runq.specs.Ends.{inlet_of, given_of, source_of, fetched_of};

    /// Makes a shared run queue with no token.
    ///
    /// Where there is no memory for it, none is made.
    pub fn new(alloc: Global) -> Result<Inlet, AllocError>
        ensures { IfOk result (λ inlet. given_of inlet ≡ []) }
    {
        let (queue, pass) = Injector::new_as(alloc)?;
        let queue = Arc::new(alloc, queue)?;
        Ok(Inlet { queue, pass })
    }

    /// Puts a token behind the others. It may wait for one that is in the midst of a step on this run queue.
    ///
    /// Where there is no memory for it, the token comes back and the run queue stays as it was.
    #[tactic(auto, using(crate::proofs::StepLemmas::puts))]
    pub fn put_shared<R: Wait>(&mut self, rt: &R, token: Token) -> Result<(), PutRefused>
        ensures same { inlet_of self.new ≡ inlet_of self.old }
        ensures put { OnOk result (given_of self.new ≡ given_of self.old ++ token ∷ []) }

        ensures refused { IfErr result (λ e. (e.0 ≡ token) × (given_of self.new ≡ given_of self.old)) }
    {
        match self.queue.push_as::<Puts, R>(rt, &mut self.pass, token) {
            Ok(()) => Ok(()),
            Err(token) => Err(PutRefused(token)),
        }
    }

    /// Makes a taker of this run queue, for a worker. It has taken nothing.
    ///
    /// There may be any number of them. `Err`: as many as can be counted are there already, and none is made.
    pub fn taker(&self) -> Result<Shared, AllocError>
        ensures { IfOk result (λ shared. (source_of shared ≡ inlet_of self.now) × (fetched_of shared ≡ [])) }
    {
        let queue = Arc::try_clone(&self.queue)?;
        Ok(Shared::new(queue))
    }
}
