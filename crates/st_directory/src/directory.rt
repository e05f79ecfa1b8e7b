//! Values by id, some of them under names.
ghost use Rattle.std.specs.Prelude.{◌≡◌, ◌==◌, String, [], length, All, None, Some, IsSome, IfOk, IfErr, IfSome, IfNone, OnOk, OnErr, option_copied};
ghost use Rattle.std.specs.Map.Iter.{ShowsInOrder, deref_pair};
ghost use Rattle.st_events.specs.declared.refusal.Refusal.TheVariants.{NoSuchName, NoSuchMachine};
ghost use Rattle.st_directory.specs.Admission.{Admits, HasRoomFor, KeepsRoom, RefusesOnly, admission_refusal, name_refusal, place_refusal, next_vacancy};
ghost use Rattle.st_directory.specs.DirectoryState.{found, id_of_name, inserted, state_of, unregistered, removed};
ghost use Rattle.st_directory.specs.Entries.{names_of_entries};
ghost use Rattle.st_directory.specs.InOrder.{StandsElsewhere};
ghost use Rattle.st_directory.specs.Slots.{ids_of};

use crate::keyed::Keyed;
use crate::names::Names;
use crate::values::Values;
use crate::{LONGEST_NAME, MOST, Vacancy};
use indexmap::map::Iter;
use st_events::{MachineId, NUMBER_LIMIT, Refusal};
use std::alloc::{AllocError, Global};
use std::marker::Model;
use std::random::RandomSource;

/// Values, each under an id of its own, and names for some of them: a name names one value, and a value has one name at
/// most. The slot of an id is used again once its value is removed, the serial never, so an id names one value at most,
/// for good.
///
/// A value is put in in three steps: `admits` says whether it may come in under its name, `prepare` gets what memory it
/// needs, and `insert`, which cannot fail, puts it in.
///
/// Ours: docs/DECISIONS.md, Directories.
#[derive(Drop)]
pub struct Directory<T> {
    alloc: Global,
    names: Names,
    values: Values<T>,
    pub(crate) begun: u64,
}

impl<T> Model for Directory<T> {
    ghost use Rattle.st_directory.specs.DirectoryState.{DirectoryView, state_of};
    ghost use Rattle.st_directory.specs.InOrder.{IsDirectory};

    ghost Value = { DirectoryView T };

    ghost view = { λ held. record {
      state = state_of held.names.names held.values.values held.begun;
      room = record { slot = held.values.slot; value_places = held.values.places; name_places = held.names.places };
    } };

    ghost invariant = { λ held. IsDirectory (state_of held.names.names held.values.values held.begun) };
}

impl<T> Directory<T> {
    /// A directory without values, whose names are hashed so.
    fn hashed_by(alloc: Global, keyed: Keyed) -> Directory<T>
        ensures { result.state ≡ state_of [] [] 0 }
    {
        Directory {
            alloc,
            names: Names::new(alloc, keyed),
            values: Values::new(alloc),
            begun: 0,
        }
    }

    /// A directory without values. It takes no memory. Its names are hashed by a key that is known: where somebody chooses
    /// them who may mean harm, take `new_keyed`.
    ///
    /// Ours: docs/DECISIONS.md, Directories.
    pub fn new(alloc: Global) -> Directory<T>
        ensures { result.state ≡ state_of [] [] 0 }
    {
        Directory::hashed_by(alloc, Keyed::known())
    }

    /// A directory without values, whose names are hashed by a key that is drawn at random: so the time to look one up does
    /// not depend on who chose it. It takes no memory.
    ///
    /// Refused with `AllocError` where no key can be drawn.
    ///
    /// Ours: docs/DECISIONS.md, Directories.
    pub fn new_keyed<R: RandomSource>(rt: &R, alloc: Global) -> Result<Directory<T>, AllocError>
        ensures { IfOk result (λ directory. directory.state ≡ state_of [] [] 0) }
    {
        let keyed = Keyed::drawn(rt)?;
        Ok(Directory::hashed_by(alloc, keyed))
    }

    /// How many values there are.
    ///
    /// Ours: docs/DECISIONS.md, Directories.
    pub fn len(&self) -> usize
        ensures { result ≡ length self.now.state.values }
    {
        self.values.len()
    }

    /// Says whether there are no values.
    ///
    /// Ours: docs/DECISIONS.md, Directories.
    pub fn is_empty(&self) -> bool
        ensures { result ≡ (length self.now.state.values == 0) }
    {
        self.len() == 0
    }

    /// The names, each with the id that it names, in order of registration.
    ///
    /// Ours: docs/DECISIONS.md, Directories.
    pub fn names(&self) -> Iter<'_, String, MachineId>
        ensures names { names_of_entries result ≡ self.now.state.names }
        ensures runs { ShowsInOrder (deref_pair {K = String Global} {X = MachineId}) }
    {
        self.names.iter()
    }

    /// A copy of the ids, by rising slot. It walks over all values.
    ///
    /// Refused with `AllocError` where memory is wanted and there is none.
    ///
    /// Ours: docs/DECISIONS.md, Directories.
    pub fn ids(&self, alloc: Global) -> Result<Vec<MachineId>, AllocError>
        ensures { IfOk result (λ ids. ids.items ≡ ids_of self.now.state.values) }
    {
        self.values.ids(alloc)
    }

    /// The id of the value at a slot. `None`: no value is there.
    ///
    /// Ours: docs/DECISIONS.md, Directories.
    pub fn id_at(&self, slot: usize) -> Option<MachineId>
        ensures there { IfSome result (λ id. (id.slot ≡ slot) × IsSome (found id self.now.state)) }

        ensures vacant { IfNone result (All (StandsElsewhere slot) self.now.state.values) }
    {
        self.values.id_at(slot)
    }

    /// The value of an id. An id that names none now is refused with `NoSuchMachine`.
    ///
    /// Ours: docs/DECISIONS.md, Directories.
    pub fn get(&self, id: MachineId) -> Result<&T, Refusal>
        ensures found { IfOk result (λ value. found id self.now.state ≡ Some value.now) }

        ensures missing { IfErr result (λ refusal. (refusal ≡ NoSuchMachine) × (found id self.now.state ≡ None)) }
    {
        match self.values.get(id) {
            Some(value) => Ok(value),
            None => Err(Refusal::NoSuchMachine),
        }
    }

    /// The id that a name is registered for. A name that is not registered is refused with `NoSuchName`.
    ///
    /// Ours: docs/DECISIONS.md, Directories.
    pub fn whereis(&self, name: &str) -> Result<MachineId, Refusal>
        ensures found { IfOk result (λ id. id_of_name name.now self.now.state ≡ Some id) }

        ensures missing { IfErr result (λ refusal. (refusal ≡ NoSuchName) × (id_of_name name.now self.now.state ≡ None)) }
    {
        match self.names.id_of(name) {
            Some(id) => Ok(id),
            None => Err(Refusal::NoSuchName),
        }
    }

    /// Why a value may not come in under a name.
    fn name_refusal(&self, name: Option<&str>) -> Option<Refusal>
        ensures { result ≡ name_refusal (option_copied name.entry) self.now.state }
    {
        match name {
            Some(name) => {
                if name.len() == 0 || name.len() > LONGEST_NAME {
                    return Some(Refusal::BadName);
                }
                match self.names.id_of(name) {
                    Some(id) => Some(Refusal::AlreadyStarted(id)),
                    None => None,
                }
            }
            None => None,
        }
    }

    /// Says whether a value may come in under a name, or under none.
    ///
    /// Refused with `BadName` where the name is empty or has more than 64 bytes, then with `AlreadyStarted` where it is
    /// registered, by the id that it names, and then with `Full` where there are 65,536 values.
    ///
    /// Ours: docs/DECISIONS.md, Directories.
    pub fn admits(&self, name: Option<&str>) -> Result<(), Refusal>
        ensures admits { OnOk result (Admits self.now.state (option_copied name.entry)) }

        ensures refusal { IfErr result (λ refusal. admission_refusal (option_copied name.entry) self.now.state ≡ Some refusal) }
    {
        if let Some(refusal) = self.name_refusal(name) {
            return Err(refusal);
        }
        if self.values.len() >= MOST {
            return Err(Refusal::Full);
        }
        Ok(())
    }

    /// Gets what memory a value needs that comes in under a name, or under none, and answers where it goes.
    ///
    /// Refused with `Exhausted` where 2^63 - 1 values were put in already, and with `NoMemory` where memory is wanted and
    /// there is none. Whatever the answer is, values and names stay as they are.
    ///
    /// Ours: docs/DECISIONS.md, Directories.
    pub fn prepare(&mut self, name: Option<&str>) -> Result<Vacancy, Refusal>
        requires { Admits self.old.state (option_copied name) }
        ensures vacancy { IfOk result (λ vacancy. vacancy ≡ next_vacancy (option_copied name.entry) self.old) }
        ensures room { IfOk result (HasRoomFor self.new) }

        ensures refusals { RefusesOnly (place_refusal self.old.state) result }

        // Whatever the answer is.
        ensures unchanged { self.new.state ≡ self.old.state }
        ensures kept { KeepsRoom self.old.room self.new.room }
    {
        if self.begun + 1 >= NUMBER_LIMIT {
            return Err(Refusal::Exhausted);
        }
        if self.values.reserve().is_err() {
            return Err(Refusal::NoMemory);
        }
        let Ok(name) = self.names.prepare(self.alloc, name) else {
            return Err(Refusal::NoMemory);
        };
        let id = MachineId {
            slot: self.values.next_slot(),
            serial: self.begun + 1,
        };
        Ok(Vacancy { id, name })
    }

    /// Puts a value in at its vacancy, under the id of the vacancy. Its name, if it has one, is registered last.
    ///
    /// Ours: docs/DECISIONS.md, Directories.
    pub fn insert(&mut self, vacancy: Vacancy, value: T)
        requires { HasRoomFor self.old vacancy }
        ensures { self.new.state ≡ inserted vacancy value self.old.state }
    {
        let Vacancy { id, name } = vacancy;
        self.values.insert(id.serial, value);
        self.names.insert(name, id);
        self.begun = id.serial;
    }

    /// Takes a name out, and answers the id that it named. The value stays, and the other names keep their order.
    ///
    /// Refused with `NoSuchName` where the name is not registered; then nothing changes.
    ///
    /// Ours: docs/DECISIONS.md, Directories.
    pub fn unregister(&mut self, name: &str) -> Result<MachineId, Refusal>
        ensures found { IfOk result (λ id. id_of_name name.now self.old.state ≡ Some id) }
        ensures unregistered { OnOk result (self.new.state ≡ unregistered name.now self.old.state) }

        ensures missing { IfErr result (λ refusal. (refusal ≡ NoSuchName) × (id_of_name name.now self.old.state ≡ None)) }
        ensures unchanged { OnErr result (self.new.state ≡ self.old.state) }

        // Whatever the answer is.
        ensures kept { KeepsRoom self.old.room self.new.room }
    {
        match self.names.remove(name) {
            Some(id) => Ok(id),
            None => Err(Refusal::NoSuchName),
        }
    }

    /// Takes the value of an id out, and its name, if one is registered. The other names keep their order, and the next
    /// value goes to the slot of the id.
    ///
    /// Refused with `NoSuchMachine` where the id names none now; then nothing changes.
    ///
    /// Ours: docs/DECISIONS.md, Directories.
    pub fn remove(&mut self, id: MachineId) -> Result<T, Refusal>
        ensures found { IfOk result (λ value. found id self.old.state ≡ Some value) }
        ensures removed { OnOk result (self.new.state ≡ removed id self.old.state) }
        ensures slot { OnOk result (self.new.room.slot ≡ id.slot) }

        ensures missing { IfErr result (λ refusal. (refusal ≡ NoSuchMachine) × (found id self.old.state ≡ None)) }
        ensures unchanged { OnErr result (self.new ≡ self.old) }
    {
        match self.values.remove(id) {
            Some(value) => {
                self.names.remove_id(id);
                Ok(value)
            }
            None => Err(Refusal::NoSuchMachine),
        }
    }
}
