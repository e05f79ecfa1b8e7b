//! The names of a directory, in order of registration.
ghost use Rattle.std.specs.Prelude.{◌≡◌, ℕ, String, ◌<◌, ◌≤◌, false, slice_get, [], length, None, Some, is_some, IsSome, IfOk, OnOk, IfSome, IfNone, string_bytes, option_copied};
ghost use Rattle.std.specs.Option.{option_map};
ghost use Rattle.std.specs.Map.Iter.{ShowsInOrder, deref_pair};
ghost use Rattle.st_directory.specs.Entries.{names_of_entries};
ghost use Rattle.st_events.specs.declared.machine_id.MachineId.{MachineId};
ghost use Rattle.st_directory.specs.InOrder.{IdsNamedOnce};
ghost use Rattle.st_directory.specs.DirectoryState.{id_in, same_id, with_name, without_name, without_names_of};

use crate::keyed::Keyed;
use indexmap::IndexMap;
use indexmap::map::Iter;
use st_events::MachineId;
use std::alloc::{AllocError, Global};
use std::marker::Model;

/// Names, each with the id that it names. One is found in one hashed look-up.
#[derive(Drop)]
pub(crate) struct Names {
    entries: IndexMap<String, MachineId, Keyed>,
}

impl Model for Names {
    ghost use Rattle.indexmap.specs.IndexMap.{spare};
    ghost use Rattle.st_directory.specs.Entries.{NamesState, names_of_entries};

    ghost Value = { NamesState };

    ghost view = { λ registered. record {
      names = names_of_entries registered.entries.entries;
      places = spare registered.entries;
    } };
}

impl Names {
    /// No names, and how those that come are hashed. It takes no memory.
    pub(crate) fn new(alloc: Global, keyed: Keyed) -> Names
        ensures { result.names ≡ [] }
    {
        Names {
            entries: IndexMap::with_hasher(alloc, keyed),
        }
    }

    /// The id that a name names.
    pub(crate) fn id_of(&self, name: &str) -> Option<MachineId>
        ensures { result ≡ id_in name.now self.now.names }
    {
        self.entries.get(name).copied()
    }

    /// The names with the ids that they name, in order of registration.
    pub(crate) fn iter(&self) -> Iter<'_, String, MachineId>
        ensures names { names_of_entries result ≡ self.now.names }
        ensures runs { ShowsInOrder (deref_pair {K = String Global} {X = MachineId}) }
    {
        self.entries.iter()
    }

    /// Makes room for a name more, and copies it. Where there is no name, nothing is done.
    pub(crate) fn prepare(
        &mut self,
        alloc: Global,
        name: Option<&str>,
    ) -> Result<Option<String>, AllocError>
        ensures copied { IfOk result (λ copy. option_map string_bytes copy ≡ option_copied name.entry) }
        ensures room { IfOk result (λ copy. IsSome copy → 0 < self.new.places) }
        ensures kept { self.old.places ≤ self.new.places }
        ensures unchanged { self.new.names ≡ self.old.names }
    {
        match name {
            Some(name) => {
                self.entries.reserve(1)?;
                Ok(Some(String::from_str(alloc, name)?))
            }
            None => Ok(None),
        }
    }

    /// Registers a name that is not taken, if there is one, last; there is room for it.
    pub(crate) fn insert(&mut self, name: Option<String>, id: MachineId)
        requires room { IsSome name → 0 < self.old.places }
        requires free { IfSome name (λ name. id_in (string_bytes name) self.old.names ≡ None) }
        ensures { self.new.names ≡ with_name (option_map string_bytes name) id self.old.names }
    {
        if let Some(name) = name {
            self.entries.insert(name, id).unwrap();
        }
    }

    /// Takes a name out. The others keep their order.
    pub(crate) fn remove(&mut self, name: &str) -> Option<MachineId>
        ensures id { result ≡ id_in name.now self.old.names }
        ensures removed { self.new.names ≡ without_name name.now self.old.names }
        ensures kept { self.old.places ≤ self.new.places }

        ensures unchanged { IfNone result (self.new.names ≡ self.old.names) }
    {
        self.entries.shift_remove(name)
    }

    /// Takes the name of an id out, if it has one. The others keep their order.
    pub(crate) fn remove_id(&mut self, id: MachineId)
        requires { IdsNamedOnce self.old.names }
        ensures removed { self.new.names ≡ without_names_of id self.old.names }
        ensures kept { self.old.places ≤ self.new.places }
    {
        if let Some(place) = place_of(self.entries.values().as_slice(), id) {
            drop(self.entries.shift_remove_index(place));
        }
    }
}

/// A place of an id. The last ones are looked at first.
fn place_of(ids: &[MachineId], id: MachineId) -> Option<usize>
    ensures place { IfSome result (λ place. slice_get ids.now place ≡ Some id) }

    ensures missing { IfNone result ((place : ℕ) (other : MachineId) → slice_get ids.now place ≡ Some other → same_id id other ≡ false) }
{
    let mut place = ids.len();
    while place > 0 {
        place -= 1;
        if id == ids[place] {
            return Some(place);
        }
    }
    None
}
