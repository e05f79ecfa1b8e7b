//! A pool, and each of its steps.
ghost use Rattle.std.specs.Prelude.{◌≡◌, None};
ghost use Rattle.st_events.specs.declared.refusal.Refusal.TheVariants.{NoMemory, NotPossible};
ghost use Rattle.st_core.specs.Callbacks.{callbacks_of};
ghost use Rattle.st_pool_core.specs.declared.step.Step.TheVariants as step;
ghost use Rattle.st_pool_core.specs.Balance.{IsBalanced};
ghost use Rattle.st_pool_core.specs.Deliveries.{CarriesOwn};
ghost use Rattle.st_scheduled.specs.Serving.{refused_with};
ghost use Rattle.st_pool_core.specs.Step.{IsFreeHand, TellsIn, DoesStep};

use crate::Step;
use crate::machines::Machines;
use crate::run_queues::RunQueues;
use crate::transit::Transit;
use st_core::{Command, Entry};
use st_events::{MachineId, Message, Module, Refusal, Token};
use st_scheduled::{AnswerOf, StepAnswer, content_of};
use std::marker::Model;

/// The machines of a pool, where their tokens stand, and what the workers carry.
#[derive(Drop)]
pub(crate) struct Pool<M: Module> {
    pub(crate) machines: Machines<M>,
    pub(crate) queues: RunQueues,
    pub(crate) transit: Transit<M::Content>,
}

impl<M: Module> Model for Pool<M> {
    ghost use Rattle.st_pool_core.specs.PoolState.{PoolState};

    ghost Value = { PoolState M M.State M.Data M.Content };

    ghost view = { λ pool. record { machines = pool.machines; queues = pool.queues; transit = pool.transit } };
}

/// What a step is answered that is not possible and holds no content.
fn not_possible<S, C>() -> StepAnswer<S, C>
    ensures { result ≡ refused_with NotPossible None }
{
    StepAnswer::refused(Refusal::NotPossible, None)
}

/// What a step is answered that found no memory and holds no content.
fn no_memory<S, C>() -> StepAnswer<S, C>
    ensures { result ≡ refused_with NoMemory None }
{
    StepAnswer::refused(Refusal::NoMemory, None)
}

impl<M: Module> Pool<M> {
    /// Does a step.
    pub(crate) fn step(&mut self, step: Step<M::Content>) -> AnswerOf<M>
        requires balanced { IsBalanced self.old }
        requires own { CarriesOwn self.old }
        ensures { DoesStep (callbacks_of M.Module M.State.eq) self.old step result self.new }
    {
        match step {
            Step::Post(id, entry, content) => self.tell(id, Command::Post(entry, content)),
            Step::Tick(id, now) => self.tell(id, Command::Tick(now)),
            Step::Give(token, lane) => self.give(token, lane),
            Step::Take(worker, lane) => self.take(worker, lane),
            Step::Turn(worker, now) => self.turn(worker, now),
            Step::PutBack(worker) => self.put_back(worker),
            Step::Drop(worker) => self.drop_token(worker),
            Step::Stop(id, reason) => self.tell(id, Command::Stop(reason)),
            Step::Reply(id, tag, content) => self.tell(id, Command::Reply(tag, content)),
            Step::Collect(id, tag) => self.tell(id, Command::Collect(tag)),
            Step::Carry(worker) => self.carry(worker),
            Step::Deliver(worker) => self.deliver(worker),
        }
    }

    /// Tells a machine a command.
    fn tell(&mut self, id: MachineId, command: Command<M::Content>) -> AnswerOf<M>
        ensures { TellsIn (callbacks_of M.Module M.State.eq) self.old id command result self.new }
    {
        match self.machines.tell(id, command) {
            Ok(answer) => answer,
            Err(command) => StepAnswer::refused(Refusal::NotPossible, content_of(command)),
        }
    }

    /// A token that is with callers goes to the end of a lane.
    fn give(&mut self, token: Token, lane: usize) -> AnswerOf<M>
        ensures { DoesStep (callbacks_of M.Module M.State.eq) self.old (step.Give token lane) result self.new }
    {
        if !self.machines.is_with_callers(token) || !self.queues.has_lane(lane) {
            return not_possible();
        }
        if self.queues.push(lane, token).is_err() {
            return no_memory();
        }
        self.machines.move_token(token.machine, false);
        StepAnswer::Moved
    }

    /// A worker whose hand is empty takes the first token of a lane.
    fn take(&mut self, worker: usize, lane: usize) -> AnswerOf<M>
        ensures { DoesStep (callbacks_of M.Module M.State.eq) self.old (step.Take worker lane) result self.new }
    {
        if self.queues.take(worker, lane) {
            StepAnswer::Moved
        } else {
            not_possible()
        }
    }

    /// The token in the hand of a worker that carries no message; `None` where it carries one, or its hand is empty.
    fn free_hand(&self, worker: usize) -> Option<Token>
        ensures { IsFreeHand self.now worker result }
    {
        if self.transit.is_carrying(worker) {
            return None;
        }
        self.queues.hand(worker)
    }

    /// A worker that carries no message serves the machine of the token in its hand, at a moment in milliseconds.
    fn turn(&mut self, worker: usize, now: u64) -> AnswerOf<M>
        requires { IsBalanced self.old }
        ensures { DoesStep (callbacks_of M.Module M.State.eq) self.old (step.Turn worker now) result self.new }
    {
        let Some(token) = self.free_hand(worker) else {
            return not_possible();
        };
        let (answer, keeps) = self.machines.serve(token.machine, now);
        if !keeps {
            self.queues.set_hand(worker, None);
        }
        answer
    }

    /// The token in the hand of a worker that carries no message goes to the end of the worker's own lane.
    fn put_back(&mut self, worker: usize) -> AnswerOf<M>
        ensures { DoesStep (callbacks_of M.Module M.State.eq) self.old (step.PutBack worker) result self.new }
    {
        let Some(token) = self.free_hand(worker) else {
            return not_possible();
        };
        if self.queues.push(worker, token).is_err() {
            return no_memory();
        }
        self.queues.set_hand(worker, None);
        StepAnswer::Moved
    }

    /// The token in the hand of a worker that carries no message goes to callers.
    fn drop_token(&mut self, worker: usize) -> AnswerOf<M>
        ensures { DoesStep (callbacks_of M.Module M.State.eq) self.old (step.Drop worker) result self.new }
    {
        let Some(token) = self.free_hand(worker) else {
            return not_possible();
        };
        self.queues.set_hand(worker, None);
        self.machines.move_token(token.machine, true);
        StepAnswer::Moved
    }

    /// A worker that carries no message takes up the first one of the machine of the token in its hand.
    fn carry(&mut self, worker: usize) -> AnswerOf<M>
        requires { CarriesOwn self.old }
        ensures { DoesStep (callbacks_of M.Module M.State.eq) self.old (step.Carry worker) result self.new }
    {
        let Some(token) = self.free_hand(worker) else {
            return not_possible();
        };
        match self.machines.take_out(token.machine) {
            Ok(message) => {
                self.transit.set(worker, message);
                StepAnswer::Moved
            }
            Err(refusal) => StepAnswer::refused(refusal, None),
        }
    }

    /// The message that a worker carries is posted to its target as an info; or it is lost, where the target is not there
    /// or refuses it. Where there is no memory, the worker carries it still.
    fn deliver(&mut self, worker: usize) -> AnswerOf<M>
        ensures { DoesStep (callbacks_of M.Module M.State.eq) self.old (step.Deliver worker) result self.new }
    {
        let Some(message) = self.transit.take(worker) else {
            return not_possible();
        };
        let Message {
            sender,
            number,
            target,
            content,
        } = message;
        match self.machines.post(target, Entry::Info, content) {
            Ok(posted) => StepAnswer::posted(Ok(posted)),
            Err(refused) => match StepAnswer::undelivered(sender, number, target, refused) {
                Ok(lost) => lost,
                Err(message) => {
                    self.transit.set(worker, Some(message));
                    no_memory()
                }
            },
        }
    }
}
