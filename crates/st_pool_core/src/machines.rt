//! The machines of a pool, by id.
ghost use Rattle.std.specs.Prelude.{◌≡◌, ◌<◌, length, map, None, IfOk, IfErr, IfSome, option_copied};
ghost use Rattle.st_core.specs.Callbacks.{callbacks_of};
ghost use Rattle.st_pool_core.specs.Opening.{core_id};
ghost use Rattle.st_pool_core.specs.PoolState.{place_of, machine_of, changed_for, is_with_callers, with_callers_in};
ghost use Rattle.st_scheduled.specs.ScheduledMachine.{moved};
ghost use Rattle.st_scheduled.specs.Serving.{scheduled_at_first};
ghost use Rattle.st_pool_core.specs.Machines.{TellsOne, ServesAt, GivesOne, PostsOne};

use indexmap::IndexSet;
use st_core::{Command, Core, Entry};
use st_events::{MachineId, Message, Module, PlainList, Refusal, Refused, Token};
use st_scheduled::{AnswerOf, Posted, ScheduledMachine, StepAnswer};
use std::alloc::{AllocError, Global};
use std::marker::Model;

/// What a machine answers to a take-out, or why it refused.
type TakenOutOf<M> = Result<Option<Message<<M as Module>::Content>>, Refusal>;

/// What a machine answers to a post, or why it refused.
type PostedOf<M> = Result<Posted, Refused<<M as Module>::Content>>;

/// The ids of a pool's machines, in their order.
#[derive(Drop)]
pub(crate) struct Ids {
    pub(crate) all: IndexSet<MachineId>,
}

/// The machines of a pool, in the order in which they came. One is found by its id in one hashed look-up.
#[derive(Drop)]
pub(crate) struct Machines<M: Module> {
    ids: IndexSet<MachineId>,
    all: Vec<ScheduledMachine<M>>,
}

impl<M: Module> Model for Machines<M> {
    ghost use Rattle.std.specs.Prelude.{◌≡◌, List, map};
    ghost use Rattle.st_scheduled.specs.ScheduledMachine.{ScheduledMachine, id_of};

    ghost Value = { List (ScheduledMachine M M.State M.Data M.Content) };

    ghost view = { λ machines. machines.all.items };

    ghost invariant = { λ machines. machines.ids.keys ≡ map id_of machines.all.items };
}

impl<M: Module> Machines<M> {
    /// These machines, whose ids these are, in their order. Where there is no memory, they come back.
    pub(crate) fn new(
        alloc: Global,
        ids: Ids,
        cores: Vec<Core<M>>,
    ) -> Result<Machines<M>, Vec<Core<M>>>
        requires { ids.all.keys ≡ map core_id cores.items }
        ensures machines { IfOk result (λ machines. machines ≡ map scheduled_at_first cores.items) }

        ensures returned { IfErr result (λ back. back ≡ cores) }
    {
        let Ok(mut all) = Vec::with_capacity(alloc, cores.len()) else {
            return Err(cores);
        };
        for core in cores {
            all.push_reserved(ScheduledMachine::new(core));
        }
        Ok(Machines { ids: ids.all, all })
    }

    /// The place of the machine of an id.
    fn place_of(&self, id: MachineId) -> Option<usize>
        ensures place { result ≡ place_of id self.now }
        ensures within { IfSome result (λ place. place < length self.now) }
    {
        self.ids.get_index_of(&id)
    }

    /// The machine of an id.
    pub(crate) fn get(&self, id: MachineId) -> Option<&ScheduledMachine<M>>
        ensures { option_copied result ≡ machine_of id self.now }
    {
        let place = self.place_of(id)?;
        Some(&self.all[place])
    }

    /// Says whether a token is with callers.
    pub(crate) fn is_with_callers(&self, token: Token) -> bool
        ensures { result ≡ is_with_callers self.now token }
    {
        match self.get(token.machine) {
            Some(machine) => machine.is_callers(token.wake),
            None => false,
        }
    }

    /// Notes of a machine's outstanding token whether it is with callers; where the machine is not there, nothing.
    pub(crate) fn move_token(&mut self, id: MachineId, with_callers: bool)
        ensures { self.new ≡ changed_for id (moved with_callers) self.old }
    {
        if let Some(place) = self.place_of(id) {
            let machine = &mut self.all[place];
            machine.move_token(with_callers);
        }
    }

    /// Tells the machine of an id a command; where the machine is not there, the command comes back.
    pub(crate) fn tell(
        &mut self,
        id: MachineId,
        command: Command<M::Content>,
    ) -> Result<AnswerOf<M>, Command<M::Content>>
        ensures told { IfOk result (λ answer. TellsOne (callbacks_of M.Module M.State.eq) self.old id command answer self.new) }

        ensures missing { IfErr result (λ back. (back ≡ command) × (machine_of id self.old ≡ None) × (self.new ≡ self.old)) }
    {
        match self.place_of(id) {
            Some(place) => {
                let machine = &mut self.all[place];
                Ok(machine.tell(command))
            }
            None => Err(command),
        }
    }

    /// Takes the first message of the machine of an id out, and answers what it answers; where the machine is not there or
    /// has none, it answers `NotPossible`.
    pub(crate) fn take_out(&mut self, id: MachineId) -> TakenOutOf<M>
        ensures { GivesOne (callbacks_of M.Module M.State.eq) self.old id result self.new }
    {
        let Some(place) = self.place_of(id) else {
            return Err(Refusal::NotPossible);
        };
        let machine = &mut self.all[place];
        if !machine.core().has_message() {
            return Err(Refusal::NotPossible);
        }
        machine.take_out()
    }

    /// Posts an event to the machine of an id, and answers what it answers; where the machine is not there, it answers
    /// `NoSuchMachine`, and the content comes back.
    pub(crate) fn post(&mut self, id: MachineId, entry: Entry, content: M::Content) -> PostedOf<M>
        ensures { PostsOne (callbacks_of M.Module M.State.eq) self.old id entry content result self.new }
    {
        let Some(place) = self.place_of(id) else {
            return Err(Refused::new(Refusal::NoSuchMachine, content));
        };
        let machine = &mut self.all[place];
        machine.post(entry, content)
    }

    /// Serves the machine of an id at a moment, in milliseconds, and says whether it keeps its token; where the machine
    /// is not there, it answers `NotPossible`, and no token is retired.
    pub(crate) fn serve(&mut self, id: MachineId, now: u64) -> (AnswerOf<M>, bool)
        ensures { ServesAt (callbacks_of M.Module M.State.eq) self.old id now result.0 result.1 self.new }
    {
        let Some(place) = self.place_of(id) else {
            return (StepAnswer::refused(Refusal::NotPossible, None), true);
        };
        let machine = &mut self.all[place];
        let answer = StepAnswer::served(machine.serve(now));
        let keeps = machine.has_token();
        (answer, keeps)
    }

    /// The tokens that are with callers, in the order of their machines. Where there is no memory, nothing is listed.
    pub(crate) fn with_callers(&self, alloc: Global) -> Result<PlainList<Token>, AllocError>
        ensures { IfOk result (λ tokens. tokens ≡ with_callers_in self.now) }
    {
        tokens_with_callers(&self.all, alloc)
    }
}

/// The tokens of machines that are with callers.
fn tokens_with_callers<M: Module>(
    machines: &[ScheduledMachine<M>],
    alloc: Global,
) -> Result<PlainList<Token>, AllocError>
    ensures { IfOk result (λ tokens. tokens ≡ with_callers_in machines.now) }
{
    let mut tokens = Vec::new(alloc);
    for machine in machines {
        if let Some(token) = machine.callers_token() {
            tokens.push(token)?;
        }
    }
    Ok(PlainList::from(tokens))
}
