//! A pool of machines and their workers.
ghost use Rattle.std.specs.Prelude.{◌≡◌, true, map, option_copied, IfOk, IfErr};
ghost use Rattle.std.specs.Option.{option_map};
ghost use Rattle.st_events.specs.declared.refusal.Refusal.TheVariants.{NoMemory};
ghost use Rattle.st_core.specs.Callbacks.{callbacks_of};
ghost use Rattle.st_pool_core.specs.Deliveries.{KeepsMessages};
ghost use Rattle.st_pool_core.specs.Opening.{may_have, opened, IsWhyNotOpened};
ghost use Rattle.st_pool_core.specs.Play.{Plays, EachWentThroughItsOwn};
ghost use Rattle.st_pool_core.specs.PoolState.{OneEach, machine_of, token_at, is_with_callers, with_callers_in};
ghost use Rattle.st_scheduled.specs.ScheduledMachine.{core_of, count_of};
ghost use Rattle.st_pool_core.specs.Queues.{hand_in, queue_in};
ghost use Rattle.st_pool_core.specs.Transit.{message_in};
ghost use Rattle.st_scheduled.specs.Serving.{scheduled_at_first};
ghost use Rattle.st_scheduled.specs.Answered.{is_refused};
ghost use Rattle.st_pool_core.specs.Step.{DoesStep};

use crate::pool::Pool;
use crate::{Step, StepAnswer};
use st_core::Core;
use st_events::{MachineId, Message, Module, PlainList, Refusal, Refused, Token};
use std::alloc::Global;
use std::marker::Model;

/// Any number of machines, the tokens that say which of them has work, the run queues, the workers' hands and the
/// messages that they carry, as one sequential object that takes no lock: it plays any list of steps.
///
/// It is always balanced: a machine that has work has one outstanding token, and each outstanding token stands in one
/// place, with callers, in a run queue or in a hand. So no machine that has work is stranded, and no machine has two
/// workers. And a worker that carries a message has the token of the machine that sent it. So of each machine one
/// message at most is in transit, and its messages stay in their order.
///
/// Ours: docs/DECISIONS.md, The pool's steps.
#[derive(Drop)]
pub struct PoolWorld<M: Module> {
    pub(crate) alloc: Global,
    pool: Pool<M>,
}

impl<M: Module> Model for PoolWorld<M> {
    ghost use Rattle.st_pool_core.specs.PoolState.{PoolState};
    ghost use Rattle.st_pool_core.specs.Balance.{IsBalanced};
    ghost use Rattle.st_pool_core.specs.Deliveries.{CarriesOwn};

    ghost Value = { PoolState M M.State M.Data M.Content };

    ghost view = { λ world. world.pool };

    ghost invariant = { λ world. IsBalanced world.pool × CarriesOwn world.pool };
}

impl<M: Module> PoolWorld<M> {
    /// A pool of so many workers, 1 to 16, and these machines, each with an id of its own. Each machine that has work is
    /// issued a token, which callers have; its count of commands is 0.
    ///
    /// Refused with `NotPossible` where there are fewer or more workers, or where two machines have one id, and with
    /// `NoMemory` where memory is wanted and there is none. Then the machines come back, as they were.
    ///
    /// Ours: docs/DECISIONS.md, The pool's steps.
    pub fn new(
        alloc: Global,
        workers: usize,
        cores: Vec<Core<M>>,
    ) -> Result<PoolWorld<M>, Refused<Vec<Core<M>>>>
        ensures opened { IfOk result (λ world. world ≡ opened workers cores.items) }
        ensures possible { IfOk result (λ world. (may_have workers ≡ true) × OneEach (map scheduled_at_first cores.items)) }

        ensures refusals { IfErr result (λ refused. IsWhyNotOpened workers cores.items refused.refusal) }
        ensures returned { IfErr result (λ refused. refused.value ≡ cores) }
    {
        match Pool::new(alloc, workers, cores) {
            Ok(pool) => Ok(PoolWorld { alloc, pool }),
            Err(refused) => Err(refused),
        }
    }

    /// Does one step, and answers what it answers.
    ///
    /// A step that is not possible is refused with `NotPossible`, one that wants memory where there is none with
    /// `NoMemory`, one whose machine refuses with that refusal, and one that would be a command past the 2^63 - 1st of
    /// its machine with `Exhausted`. Then nothing changes, and the content that the step held comes back.
    ///
    /// Ours: docs/DECISIONS.md, The pool's steps.
    pub fn step(&mut self, step: Step<M::Content>) -> StepAnswer<M::State, M::Content>
        ensures does { DoesStep (callbacks_of M.Module M.State.eq) self.old step result self.new }

        ensures unchanged { is_refused result ≡ true → self.new ≡ self.old }
    {
        self.pool.step(step)
    }

    /// Does steps in order, and answers their answers. A step that is refused stands among them with its refusal.
    ///
    /// Each machine goes through its own commands, those that the steps gave it, and through no others. No message is lost
    /// unseen, and none comes twice: what a machine sent is, in order, what was delivered of it, what is in transit, and
    /// its outbox; each delivered message is one post at its target, in order, or is lost for a reason that its step
    /// answers.
    ///
    /// Refused with `NoMemory` where there is no memory for the answers: then nothing is done, and the steps come back.
    ///
    /// Ours: docs/DECISIONS.md, The pool's steps.
    pub fn play(
        &mut self,
        steps: Vec<Step<M::Content>>,
    ) -> Result<Vec<StepAnswer<M::State, M::Content>>, Refused<Vec<Step<M::Content>>>>
        ensures played { IfOk result (λ answers. Plays (callbacks_of M.Module M.State.eq) self.old steps.items answers.items self.new) }
        ensures own { IfOk result (λ answers. EachWentThroughItsOwn (callbacks_of M.Module M.State.eq) self.old steps.items answers.items self.new) }
        ensures messages { IfOk result (λ answers. KeepsMessages (callbacks_of M.Module M.State.eq) self.old steps.items answers.items self.new) }

        ensures unchanged { IfErr result (λ refused. (refused.refusal ≡ NoMemory) × (refused.value ≡ steps) × (self.new ≡ self.old)) }
    {
        let mut answers = match Vec::with_capacity(self.alloc, steps.len()) {
            Ok(answers) => answers,
            Err(_) => return Err(Refused::new(Refusal::NoMemory, steps)),
        };
        for step in steps {
            let answer = self.step(step);
            answers.push_reserved(answer);
        }
        Ok(answers)
    }

    /// The machine of an id.
    ///
    /// Ours: docs/DECISIONS.md, The pool's steps.
    pub fn machine(&self, id: MachineId) -> Option<&Core<M>>
        ensures { option_copied result ≡ option_map core_of (machine_of id self.now.machines) }
    {
        let machine = self.pool.machines.get(id)?;
        Some(machine.core())
    }

    /// How many commands the machine of an id has taken in this pool: those that were not refused. A collect that hands
    /// nothing out is none.
    ///
    /// Ours: docs/DECISIONS.md, The pool's steps.
    pub fn count(&self, id: MachineId) -> Option<u64>
        ensures { result ≡ option_map count_of (machine_of id self.now.machines) }
    {
        let machine = self.pool.machines.get(id)?;
        Some(machine.count())
    }

    /// The outstanding token of the machine of an id; `None` where there is no such machine, or it has none.
    ///
    /// Ours: docs/DECISIONS.md, Tokens.
    pub fn token(&self, id: MachineId) -> Option<Token>
        ensures { result ≡ token_at (machine_of id self.now.machines) }
    {
        let machine = self.pool.machines.get(id)?;
        machine.token()
    }

    /// Says whether callers have a token.
    ///
    /// Ours: docs/DECISIONS.md, Tokens.
    pub fn is_with_callers(&self, token: Token) -> bool
        ensures { result ≡ is_with_callers self.now.machines token }
    {
        self.pool.machines.is_with_callers(token)
    }

    /// The tokens that callers have, in the order of their machines.
    ///
    /// Refused with `NoMemory` where memory is wanted and there is none; then nothing is listed.
    ///
    /// Ours: docs/DECISIONS.md, Tokens.
    pub fn with_callers(&self) -> Result<PlainList<Token>, Refusal>
        ensures tokens { IfOk result (λ tokens. tokens ≡ with_callers_in self.now.machines) }

        ensures refusals { IfErr result (λ refusal. refusal ≡ NoMemory) }
    {
        Ok(self.pool.machines.with_callers(self.alloc)?)
    }

    /// The token in a worker's hand; `None` where there is no such worker, or its hand is empty.
    ///
    /// Ours: docs/DECISIONS.md, Tokens.
    pub fn hand(&self, worker: usize) -> Option<Token>
        ensures { result ≡ hand_in self.now.queues worker }
    {
        self.pool.queues.hand(worker)
    }

    /// The message that a worker carries; `None` where the worker is not there or carries none.
    ///
    /// Ours: docs/DECISIONS.md, Messages.
    pub fn carried(&self, worker: usize) -> Option<&Message<M::Content>>
        ensures { option_copied result ≡ message_in self.now.transit worker }
    {
        self.pool.transit.message(worker)
    }

    /// The tokens of a lane, the first one in front; `None` where there is no such lane. Lane 0 is the shared run queue,
    /// each other lane that of the worker of its number.
    ///
    /// Refused with `NoMemory` where memory is wanted and there is none; then nothing is listed.
    ///
    /// Ours: docs/DECISIONS.md, Tokens.
    pub fn lane(&self, lane: usize) -> Result<Option<PlainList<Token>>, Refusal>
        ensures tokens { IfOk result (λ tokens. tokens ≡ queue_in self.now.queues lane) }

        ensures refusals { IfErr result (λ refusal. refusal ≡ NoMemory) }
    {
        Ok(self.pool.queues.lane(self.alloc, lane)?)
    }
}
