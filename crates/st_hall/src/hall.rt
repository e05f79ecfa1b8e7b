//! A registry that threads share.
ghost use Rattle.std.specs.Prelude.{◌≡◌, ◌⊎◌, ◌==◌, ℕ, true, if◌then◌else◌, Some, None, IsSome, IfOk, IfErr, IfSome, IfNone, OnOk, option_copied};
ghost use Rattle.std.specs.Arc.{arc_value};
ghost use Rattle.st_events.specs.declared.refusal.Refusal.TheVariants.{NoMemory, NoSuchName, NoSuchMachine, NotStopped};
ghost use Rattle.st_core.specs.Callbacks.{callbacks_of};
ghost use Rattle.st_core.specs.Start.{start_of};
ghost use Rattle.st_cell.specs.Calls.{is_removable};
ghost use Rattle.st_lock.specs.Machines.{id_of, IsFoundAt};
ghost use Rattle.st_directory.specs.Entries.{names_of_entries};
ghost use Rattle.st_hall.specs.Hall.{StartsSomewhere, IsNamedSomewhere, AreNamesSomewhere, AreIdsSomewhere, IsRegisteredSomewhere, IsThereSomewhere, IsVacantSomewhere, IsCountedSomewhere};
ghost use Rattle.st_hall.specs.Outstanding.{is_outstanding};

use crate::copies::copied;
use crate::outstanding::{delivered, unserved};
use crate::{FoundMachine, Served, Undelivered};
use st_directory::MOST;
use st_pool::{Hand, Message};
use st_registry::{
    Machine, MachineId, Module, Reason, Refusal, Refused, Registry, Started, Token,
    a_registry_is_in_order,
};
use std::alloc::{AllocError, Global};
use std::sync::{Arc, Mutex, RwLock, Wait};

/// A registry under a lock, which many threads may have at once to read. It keeps the handle that its locks need.
///
/// No call has this lock while a turn is made: a machine is found first, and its own lock is taken after this one was let
/// go. `remove_stopped` alone has both. So the machine that was found may have been removed in between; it is served all
/// the same, by whoever has it.
///
/// A call may wait for a lock. No contract says that it gets it.
///
/// Ours: docs/DECISIONS.md, Halls, Directories.
#[derive(Drop)]
pub struct Hall<M: Module, R: Wait + Drop> {
    registry: RwLock<Registry<M>>,
    undelivered: Mutex<Undelivered>,
    rt: R,
}

impl<M: Module, R: Wait + Drop> Hall<M, R> {
    /// Shares a registry.
    ///
    /// Ours: docs/DECISIONS.md, Halls.
    pub fn new(rt: R, registry: Registry<M>) -> Hall<M, R> {
        Hall {
            registry: RwLock::new(registry),
            undelivered: Mutex::new(Undelivered::new()),
            rt,
        }
    }

    /// Starts a machine, as `Registry::start` does. The module's `init` and first enter call run while nobody else has the
    /// registry.
    ///
    /// Refused as `Registry::start` is; then nothing has changed, and the module comes back.
    ///
    /// Manual: `start/3`, `start/4`, `start_ret()`; ours: docs/DECISIONS.md, Halls.
    pub fn start(
        &self,
        name: Option<&str>,
        module: M,
        arg: &M::Arg,
        now: u64,
    ) -> Result<Started, Refused<M>>
        ensures starts { StartsSomewhere {A = M.Arg} «module» (λ id. start_of (callbacks_of M.Module M.State.eq «module») «module» id (M.init_is «module» arg.now) now 1) (option_copied name.entry) now result }

        ensures returned { IfErr result (λ refused. refused.value ≡ «module») }
    {
        let mut registry = self.registry.write(&self.rt);
        a_registry_is_in_order(&registry);
        registry.start(&self.rt, name, module, arg, now)
    }

    /// The id of the machine of a name.
    ///
    /// Refused with `NoSuchName` where the name is not registered.
    ///
    /// Manual: `server_ref()`; ours: docs/DECISIONS.md, Halls.
    pub fn whereis(&self, name: &str) -> Result<MachineId, Refusal>
        ensures found { IfOk result (λ id. IsNamedSomewhere M M.State M.Data M.Content M.Arg name.now id) }

        ensures refusals { IfErr result (λ refusal. refusal ≡ NoSuchName) }
    {
        let registry = self.registry.read(&self.rt);
        a_registry_is_in_order(&registry);
        registry.whereis(name)
    }

    /// Takes a name out. The machine stays, and is found by its id; the other names keep their order.
    ///
    /// Refused with `NoSuchName` where the name is not registered; then nothing changes.
    ///
    /// Ours: docs/DECISIONS.md, Halls.
    pub fn unregister(&self, name: &str) -> Result<(), Refusal>
        ensures registered { OnOk result (IsRegisteredSomewhere M M.State M.Data M.Content M.Arg name.now) }

        ensures refusals { IfErr result (λ refusal. refusal ≡ NoSuchName) }
    {
        let mut registry = self.registry.write(&self.rt);
        a_registry_is_in_order(&registry);
        registry.unregister(name)
    }

    /// The machine of an id. The registry's lock is let go before it is answered.
    ///
    /// Refused with `NoSuchMachine` where the id names none now, and with `NoMemory` where the machine has as many owners
    /// as can be counted.
    ///
    /// Ours: docs/DECISIONS.md, Halls.
    pub fn machine(&self, id: MachineId) -> Result<Arc<Machine<M>>, Refusal>
        ensures id { IfOk result (λ machine. id_of (arc_value machine) ≡ id) }

        ensures refusals { IfErr result (λ refusal. (refusal ≡ NoSuchMachine) ⊎ (refusal ≡ NoMemory)) }
    {
        self.registry.read(&self.rt).machine(id)
    }

    /// The machine at a slot, if one is there: its id may have any serial. Who asks for each slot below 65,536 finds each machine
    /// that stays, and takes no memory.
    ///
    /// Refused with `NoMemory` where the machine has as many owners as can be counted.
    ///
    /// Ours: docs/DECISIONS.md, Halls.
    pub fn machine_at(&self, slot: usize) -> Result<Option<Arc<Machine<M>>>, Refusal>
        ensures slot { IfOk result (λ machine. IfSome machine (λ found. (id_of (arc_value found)).slot ≡ slot)) }
        ensures vacant { IfOk result (λ machine. IfNone machine (IsVacantSomewhere M M.State M.Data M.Content M.Arg slot)) }

        ensures refusals { IfErr result (λ refusal. refusal ≡ NoMemory) }
    {
        let registry = self.registry.read(&self.rt);
        a_registry_is_in_order(&registry);
        let Some(id) = registry.id_at(slot) else {
            return Ok(None);
        };
        match registry.machine(id) {
            Ok(machine) => Ok(Some(machine)),
            Err(_) => Err(Refusal::NoMemory),
        }
    }

    /// The machine of an id, to be served more than once.
    ///
    /// Refused as `machine` is.
    ///
    /// Ours: docs/DECISIONS.md, Halls.
    pub fn find(&self, id: MachineId) -> Result<FoundMachine<'_, M, R>, Refusal>
        ensures id { IfOk result (λ found. found ≡ id) }

        ensures refusals { IfErr result (λ refusal. (refusal ≡ NoSuchMachine) ⊎ (refusal ≡ NoMemory)) }
    {
        let machine = self.machine(id)?;
        Ok(FoundMachine::new(self, machine))
    }

    /// What the machines' locks are taken by.
    pub(crate) fn rt(&self) -> &R {
        &self.rt
    }

    /// A copy of the names, each with the id of its machine, in order of registration.
    ///
    /// Refused with `AllocError` where memory is wanted and there is none; then nothing changes.
    ///
    /// Ours: docs/DECISIONS.md, Halls.
    pub fn names(&self, alloc: Global) -> Result<Vec<(String, MachineId)>, AllocError>
        ensures names { IfOk result (λ names. AreNamesSomewhere M M.State M.Data M.Content M.Arg (names_of_entries names.items)) }
    {
        let registry = self.registry.read(&self.rt);
        a_registry_is_in_order(&registry);
        copied(alloc, registry.names())
    }

    /// A copy of the machines' ids, those without a name too, by rising slot.
    ///
    /// Refused with `AllocError` where memory is wanted and there is none; then nothing changes.
    ///
    /// Ours: docs/DECISIONS.md, Halls.
    pub fn ids(&self, alloc: Global) -> Result<Vec<MachineId>, AllocError>
        ensures ids { IfOk result (λ ids. AreIdsSomewhere M M.State M.Data M.Content M.Arg ids.items) }
    {
        let registry = self.registry.read(&self.rt);
        a_registry_is_in_order(&registry);
        registry.ids(alloc)
    }

    /// How many machines there are.
    ///
    /// Ours: docs/DECISIONS.md, Halls.
    pub fn len(&self) -> usize
        ensures { IsCountedSomewhere M M.State M.Data M.Content M.Arg result }
    {
        let registry = self.registry.read(&self.rt);
        a_registry_is_in_order(&registry);
        registry.len()
    }

    /// Says whether there is no machine.
    ///
    /// Ours: docs/DECISIONS.md, Halls.
    pub fn is_empty(&self) -> bool
        ensures { (count : ℕ) × IsCountedSomewhere M M.State M.Data M.Content M.Arg count × (result ≡ (count == 0)) }
    {
        self.len() == 0
    }

    /// Removes a machine that has ended, as `Registry::remove_stopped` does. It has the registry's lock while it looks at
    /// the machine under that one's lock.
    ///
    /// Refused with `NoSuchMachine` where the id names none now, and with `NotStopped` where the machine has not ended or a
    /// message of it was not taken out; then nothing changes.
    ///
    /// Ours: docs/DECISIONS.md, Halls.
    pub fn remove_stopped(&self, id: MachineId) -> Result<(), Refusal>
        ensures there { OnOk result (IsThereSomewhere M M.State M.Data M.Content M.Arg id) }
        ensures stopped { OnOk result (IsFoundAt (callbacks_of M.Module M.State.eq) (λ cell. is_removable cell) id true) }

        ensures refusals { IfErr result (λ refusal. (refusal ≡ NoSuchMachine) ⊎ (refusal ≡ NotStopped)) }
    {
        let mut registry = self.registry.write(&self.rt);
        a_registry_is_in_order(&registry);
        registry.remove_stopped(&self.rt, id)
    }

    /// Ends each machine that has not ended, as `Machine::stop` does. Nobody has the registry's lock while one is stopped. It
    /// takes no memory. One that has as many owners as can be counted, or whose numbers are used up, goes on.
    ///
    /// Manual: `stop/3`; ours: docs/DECISIONS.md, Halls.
    pub fn stop_each(&self, reason: Reason) {
        for slot in 0..MOST {
            if let Ok(Some(machine)) = self.machine_at(slot) {
                let _ = machine.stop(&self.rt, reason);
            }
        }
    }

    /// How many messages could not be delivered so far, by why.
    ///
    /// Ours: docs/DECISIONS.md, Messages.
    pub fn undelivered(&self) -> Undelivered {
        *self.undelivered.lock(&self.rt)
    }

    /// Serves the machine of a token, at a moment, in milliseconds, with what its worker carries. It does one of three
    /// things: a message in the hand is delivered; else the machine's first message is taken out and delivered, where it has
    /// one; else it is given a turn.
    ///
    /// The token comes back where the machine is to be served by it again: a message was delivered or taken out, it has
    /// work still, or it refused the turn and kept the token. `None`: the machine rests or has ended, was removed, or has
    /// another token outstanding.
    ///
    /// A message that was delivered leaves the hand, and the token that its target was issued by it, if it was, stands in
    /// the hand. A message is lost, and counted in `undelivered`, where its target has ended, can take no event more, or is
    /// not there. Where memory is wanted and there is none, it stays in the hand, and the next call delivers it.
    ///
    /// Manual: `Module:handle_event/4`; ours: docs/DECISIONS.md, Halls, Tokens, Messages.
    pub fn turn(&self, token: Token, now: u64, hand: &mut Hand<M::Content>) -> Option<Token>
        requires woken { hand.old.woken ≡ None }
        ensures returned { IfSome result (λ back. back ≡ token) }
        ensures delivering { IsSome hand.old.message → result ≡ Some token }
        ensures carrying { IsSome hand.new.message → result ≡ Some token }
        ensures carried { IfSome hand.old.message (λ message. (hand.new.message ≡ None) ⊎ (hand.new.message ≡ Some message)) }
    {
        self.serve(token, now, hand).token
    }

    /// Serves the machine of a token as `turn` does, and says too why nothing was done, if nothing was: `NoSuchMachine`
    /// where the id names none now, `NotQueued` where the machine has another token outstanding, and `Moment`, `Exhausted`
    /// and `NoMemory`, after which it keeps the token and the same may be asked for again. Of a message that is lost it
    /// says nothing: that is counted.
    ///
    /// Manual: `Module:handle_event/4`; ours: docs/DECISIONS.md, Halls, Tokens, Messages.
    pub fn serve(&self, token: Token, now: u64, hand: &mut Hand<M::Content>) -> Served
        requires woken { hand.old.woken ≡ None }
        ensures returned { IfSome result.token (λ back. back ≡ token) }
        ensures delivering { IsSome hand.old.message → result.token ≡ Some token }
        ensures carrying { IsSome hand.new.message → result.token ≡ Some token }
        ensures carried { IfSome hand.old.message (λ message. (hand.new.message ≡ None) ⊎ (hand.new.message ≡ Some message)) }

        ensures outstanding { IfSome result.refusal (λ refusal. result.token ≡ (if is_outstanding refusal then Some token else None)) }
    {
        if let Some(message) = hand.message.take() {
            return self.deliver(token, message, hand);
        }
        match self.find(token.machine) {
            Ok(machine) => machine.serve(token, now, hand),
            Err(refusal) => unserved(token, refusal),
        }
    }

    /// Delivers a message of a token's machine, which is to be served again.
    pub(crate) fn deliver(
        &self,
        token: Token,
        message: Message<M::Content>,
        hand: &mut Hand<M::Content>,
    ) -> Served
        requires none { hand.old.message ≡ None }
        requires woken { hand.old.woken ≡ None }
        ensures token { result.token ≡ Some token }
        ensures carried { (hand.new.message ≡ None) ⊎ (hand.new.message ≡ Some message) }

        ensures refusals { IfSome result.refusal (λ refusal. refusal ≡ NoMemory) }
    {
        match self.delivered(message) {
            Ok(woken) => {
                hand.woken = woken;
                delivered(token)
            }
            Err(refused) => match refused.refusal {
                Refusal::NoMemory => {
                    hand.message = Some(refused.value);
                    unserved(token, Refusal::NoMemory)
                }
                refusal => {
                    self.undelivered.lock(&self.rt).count(refusal);
                    delivered(token)
                }
            },
        }
    }

    /// Delivers a message to its target, and answers the token that this one is issued by it, if it is.
    fn delivered(
        &self,
        message: Message<M::Content>,
    ) -> Result<Option<Token>, Refused<Message<M::Content>>>
        ensures returned { IfErr result (λ refused. refused.value ≡ message) }
    {
        let machine = match self.machine(message.target) {
            Ok(machine) => machine,
            Err(refusal) => return Err(Refused::new(refusal, message)),
        };
        match machine.deliver(&self.rt, message) {
            Ok(posted) => Ok(posted.wake),
            Err(refused) => Err(refused),
        }
    }
}
