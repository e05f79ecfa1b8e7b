//! Machines by id and by name.
ghost use Rattle.std.specs.Prelude.{◌≡◌, ◌==◌, [], length, true, false, All, Some, None, Err, IsSome, IfOk, IfErr, IfSome, IfNone, OnOk, OnErr, String, option_copied};
ghost use Rattle.std.specs.Arc.{arc_value};
ghost use Rattle.std.specs.Map.Iter.{ShowsInOrder, deref_pair};
ghost use Rattle.st_events.specs.declared.refusal.Refusal.TheVariants.{NoMemory, NoSuchName, NoSuchMachine, NotStopped};
ghost use Rattle.st_core.specs.Callbacks.{callbacks_of};
ghost use Rattle.st_core.specs.Start.{start_of};
ghost use Rattle.st_directory.specs.DirectoryState.{found, id_of_name, state_of, unregistered, removed};
ghost use Rattle.st_directory.specs.Entries.{names_of_entries};
ghost use Rattle.st_directory.specs.InOrder.{IsDirectory, StandsElsewhere};
ghost use Rattle.st_directory.specs.Slots.{ids_of};
ghost use Rattle.st_cell.specs.Calls.{is_removable};
ghost use Rattle.st_lock.specs.Machines.{id_of, IsFoundAt};
ghost use Rattle.st_registry.specs.Registry.{HasIds, StartsUnder, start_due, IsMachineAt, RefusesMachine, RefusesRemoval};

use crate::Started;
use crate::making::Making;
use crate::starts::start_at;
use indexmap::map::Iter;
use st_core::MOMENT_LIMIT;
use st_directory::{Directory, a_directory_is_in_order};
use st_lock::{Machine, MachineId, Module, Refusal, Refused};
use std::alloc::{AllocError, Global};
use std::marker::Model;
use std::random::RandomSource;
use std::sync::{Arc, Wait};

/// Machines of one module by id, some of them under names. An id names at most one machine, for good. A contract sees the
/// names with their ids, in order of registration, the machines by id, and how many were started.
///
/// Manual: `server_name()`, `server_ref()`; ours: docs/DECISIONS.md, Ids, Directories.
#[derive(Drop)]
pub struct Registry<M: Module> {
    directory: Directory<Arc<Machine<M>>>,
    making: Making,
}

impl<M: Module> Model for Registry<M> {
    ghost use Rattle.st_registry.specs.Registry.{RegistryState, HasIds};

    ghost Value = { RegistryState M M.State M.Data M.Content M.Arg };

    ghost view = { λ registry. registry.directory.state };

    ghost invariant = { λ registry. HasIds registry.directory.state };
}

impl<M: Module> Registry<M> {
    /// No machine yet. It takes no memory. Names are hashed by a key that is known: where somebody chooses them who may mean
    /// harm, take `new_keyed`.
    ///
    /// Ours: docs/DECISIONS.md, Directories.
    pub fn new(alloc: Global) -> Registry<M>
        ensures { result ≡ state_of [] [] 0 }
    {
        Registry {
            directory: Directory::new(alloc),
            making: Making { alloc, keeps: true },
        }
    }

    /// No machine yet, and those that are started keep no journal. It takes no memory. Names are hashed as by `new`.
    ///
    /// Ours: docs/DECISIONS.md, Machines without a journal, Directories.
    pub fn unjournaled(alloc: Global) -> Registry<M>
        ensures { result ≡ state_of [] [] 0 }
    {
        Registry {
            directory: Directory::new(alloc),
            making: Making {
                alloc,
                keeps: false,
            },
        }
    }

    /// No machine yet, as `new` answers. Names are hashed by a key that is drawn at random: so the time to look one up does
    /// not depend on who chose it. It takes no memory.
    ///
    /// Refused with `AllocError` where no key can be drawn.
    ///
    /// Ours: docs/DECISIONS.md, Directories.
    pub fn new_keyed<R: RandomSource>(rt: &R, alloc: Global) -> Result<Registry<M>, AllocError>
        ensures { IfOk result (λ registry. registry ≡ state_of [] [] 0) }
    {
        Ok(Registry {
            directory: Directory::new_keyed(rt, alloc)?,
            making: Making { alloc, keeps: true },
        })
    }

    /// No machine yet, as `unjournaled` answers. Names are hashed as by `new_keyed`. It takes no memory.
    ///
    /// Refused with `AllocError` where no key can be drawn.
    ///
    /// Ours: docs/DECISIONS.md, Machines without a journal, Directories.
    pub fn unjournaled_keyed<R: RandomSource>(
        rt: &R,
        alloc: Global,
    ) -> Result<Registry<M>, AllocError>
        ensures { IfOk result (λ registry. registry ≡ state_of [] [] 0) }
    {
        Ok(Registry {
            directory: Directory::new_keyed(rt, alloc)?,
            making: Making {
                alloc,
                keeps: false,
            },
        })
    }

    /// Starts a machine as `Core::start` does, under a name if one is given, at a moment, in milliseconds, and keeps it
    /// under an id that no machine had.
    ///
    /// Refused, in this order, with `BadName` where the name has no byte or more than 64; with `AlreadyStarted` where it is
    /// registered; with `Full` where there are 65,536 machines; with `Moment` at 2^63 or later; with `Exhausted` where
    /// 2^63 - 1 machines were started, and as `Core::start` is; with `NoMemory` where memory is wanted and there is none.
    /// Then nothing has changed, and the module comes back.
    ///
    /// Manual: `start/3`, `start/4`, `start_ret()`.
    pub fn start<R: Wait>(
        &mut self,
        rt: &R,
        name: Option<&str>,
        module: M,
        arg: &M::Arg,
        now: u64,
    ) -> Result<Started, Refused<M>>
        ensures starts { StartsUnder «module» (λ id. start_of (callbacks_of M.Module M.State.eq «module») «module» id (M.init_is «module» arg.now) now 1) (start_due (option_copied name.entry) now self.old) (option_copied name.entry) self.old result self.new }

        ensures unchanged { OnErr result (self.new ≡ self.old) }
        ensures returned { IfErr result (λ refused. refused.value ≡ «module») }
    {
        if let Err(refusal) = self.directory.admits(name) {
            return Err(Refused::new(refusal, module));
        }
        if now >= MOMENT_LIMIT {
            return Err(Refused::new(Refusal::Moment, module));
        }
        match self.directory.prepare(name) {
            Ok(vacancy) => start_at(
                self.making,
                rt,
                &mut self.directory,
                vacancy,
                module,
                arg,
                now,
            ),
            Err(refusal) => Err(Refused::new(refusal, module)),
        }
    }

    /// The id of the machine of a name.
    ///
    /// Refused with `NoSuchName` where the name is not registered.
    ///
    /// Manual: `server_ref()`; ours: docs/DECISIONS.md, Directories.
    pub fn whereis(&self, name: &str) -> Result<MachineId, Refusal>
        ensures found { IfOk result (λ id. id_of_name name.now self.now ≡ Some id) }

        ensures missing { IfErr result (λ refusal. (refusal ≡ NoSuchName) × (id_of_name name.now self.now ≡ None)) }
    {
        self.directory.whereis(name)
    }

    /// Takes a name out. The machine stays, and is found by its id; the other names keep their order.
    ///
    /// Refused with `NoSuchName` where the name is not registered; then nothing changes.
    ///
    /// Ours: docs/DECISIONS.md, Directories.
    pub fn unregister(&mut self, name: &str) -> Result<(), Refusal>
        ensures unregistered { OnOk result (self.new ≡ unregistered name.now self.old) }
        ensures registered { OnOk result (IsSome (id_of_name name.now self.old)) }

        ensures missing { IfErr result (λ refusal. (refusal ≡ NoSuchName) × (id_of_name name.now self.old ≡ None)) }
        ensures unchanged { OnErr result (self.new ≡ self.old) }
    {
        match self.directory.unregister(name) {
            Ok(_) => Ok(()),
            Err(refusal) => Err(refusal),
        }
    }

    /// The machine of an id.
    ///
    /// Refused with `NoSuchMachine` where the id names none now, and with `NoMemory` where the machine has as many owners
    /// as can be counted.
    ///
    /// Ours: docs/DECISIONS.md, Directories.
    pub fn machine(&self, id: MachineId) -> Result<Arc<Machine<M>>, Refusal>
        ensures found { IfOk result (λ machine. IsMachineAt id self.now (arc_value machine)) }

        ensures refusals { IfErr result (λ refusal. RefusesMachine id self.now refusal) }
    {
        let machine = self.directory.get(id)?;
        match Arc::try_clone(machine) {
            Ok(machine) => Ok(machine),
            Err(_) => Err(Refusal::NoMemory),
        }
    }

    /// The id of the machine at a slot. `None`: no machine is there.
    ///
    /// Ours: docs/DECISIONS.md, Directories.
    pub fn id_at(&self, slot: usize) -> Option<MachineId>
        ensures there { IfSome result (λ id. (id.slot ≡ slot) × IsSome (found id self.now)) }

        ensures vacant { IfNone result (All (StandsElsewhere slot) self.now.values) }
    {
        self.directory.id_at(slot)
    }

    /// The names, each with the id of its machine, in order of registration.
    ///
    /// Ours: docs/DECISIONS.md, Directories.
    pub fn names(&self) -> Iter<'_, String, MachineId>
        ensures names { names_of_entries result ≡ self.now.names }
        ensures runs { ShowsInOrder (deref_pair {K = String Global} {X = MachineId}) }
    {
        self.directory.names()
    }

    /// A copy of the machines' ids, by rising slot. It walks over all machines.
    ///
    /// Refused with `AllocError` where memory is wanted and there is none.
    ///
    /// Ours: docs/DECISIONS.md, Directories.
    pub fn ids(&self, alloc: Global) -> Result<Vec<MachineId>, AllocError>
        ensures { IfOk result (λ ids. ids.items ≡ ids_of self.now.values) }
    {
        self.directory.ids(alloc)
    }

    /// How many machines there are.
    ///
    /// Ours: docs/DECISIONS.md, Directories.
    pub fn len(&self) -> usize
        ensures { result ≡ length self.now.values }
    {
        self.directory.len()
    }

    /// Says whether there is no machine.
    ///
    /// Ours: docs/DECISIONS.md, Directories.
    pub fn is_empty(&self) -> bool
        ensures { result ≡ (length self.now.values == 0) }
    {
        self.directory.is_empty()
    }

    /// Removes a machine that has ended and of which no message is left, and its name, if one is registered; the other names
    /// keep their order. Whoever has the machine keeps it; its id names none any more, for good.
    ///
    /// Refused with `NoSuchMachine` where the id names none now, and with `NotStopped` where the machine has not ended or a
    /// message of it was not taken out; then nothing changes.
    ///
    /// Ours: docs/DECISIONS.md, Directories.
    pub fn remove_stopped<R: Wait>(&mut self, rt: &R, id: MachineId) -> Result<(), Refusal>
        ensures removed { OnOk result (self.new ≡ removed id self.old) }
        ensures there { OnOk result (IsSome (found id self.old)) }
        ensures stopped { OnOk result (IsFoundAt (callbacks_of M.Module M.State.eq) (λ cell. is_removable cell) id true) }

        ensures refusals { IfErr result (λ refusal. RefusesRemoval id self.old refusal) }
        ensures running { result ≡ Err NotStopped → IsFoundAt (callbacks_of M.Module M.State.eq) (λ cell. is_removable cell) id false }
        ensures unchanged { OnErr result (self.new ≡ self.old) }
    {
        let machine = self.directory.get(id)?;
        if !machine.removable(rt) {
            return Err(Refusal::NotStopped);
        }
        match self.directory.remove(id) {
            Ok(machine) => {
                drop(machine);
                Ok(())
            }
            Err(refusal) => Err(refusal),
        }
    }
}

/// In each registry a name stands once and names a machine that is there, no two names name one machine, each machine has a
/// serial of its own, one of those that were given, and is there under its own id. It is shown once, and calling it does
/// nothing.
///
/// Ours: docs/DECISIONS.md, Directories.
pub fn a_registry_is_in_order<M: Module>(registry: &Registry<M>)
    ensures order { IsDirectory registry.now }
    ensures own { HasIds registry.now }
{
    a_directory_is_in_order(&registry.directory);
}
