//! The values of a directory, by id.
ghost use Rattle.std.specs.Prelude.{◌≡◌, ◌<◌, ◌≤◌, ◌^◌, [], length, All, None, IsSome, IfOk, IfSome, IfNone, OnOk, option_copied};
ghost use Rattle.st_directory.specs.DirectoryState.{value_in, with_value, without_value};
ghost use Rattle.st_directory.specs.InOrder.{StandsElsewhere};
ghost use Rattle.st_directory.specs.Slots.{id_at, ids_of};

use slab::Slab;
use st_events::MachineId;
use std::alloc::{AllocError, Global};
use std::marker::Model;

/// A value, and the serial of its id.
#[derive(Drop)]
pub(crate) struct Stored<T> {
    serial: u64,
    value: T,
}

/// Values, each under an id: the slot is the slab's key, and the serial stands beside the value.
#[derive(Drop)]
pub(crate) struct Values<T> {
    slab: Slab<Stored<T>>,
}

impl<T> Model for Values<T> {
    ghost use Rattle.std.specs.Prelude.{◌-◌};
    ghost use Rattle.slab.specs.Slab.{slab_len};
    ghost use Rattle.st_directory.specs.Slots.{ValuesState, values_from};

    ghost Value = { ValuesState T };

    ghost view = { λ stored. record {
      values = values_from 0 stored.slab.slots;
      slot = stored.slab.vacant_key;
      places = stored.slab.capacity - slab_len stored.slab;
    } };
}

impl<T> Values<T> {
    /// No values. It takes no memory.
    pub(crate) fn new(alloc: Global) -> Values<T>
        ensures { result.values ≡ [] }
    {
        Values {
            slab: Slab::new(alloc),
        }
    }

    /// How many values there are.
    pub(crate) fn len(&self) -> usize
        ensures { result ≡ length self.now.values }
    {
        self.slab.len()
    }

    /// The slot of the next value.
    pub(crate) fn next_slot(&self) -> usize
        ensures { result ≡ self.now.slot }
    {
        self.slab.vacant_key()
    }

    /// Makes room for a value more.
    pub(crate) fn reserve(&mut self) -> Result<(), AllocError>
        ensures room { OnOk result (0 < self.new.places) }
        ensures kept { self.old.places ≤ self.new.places }
        ensures unchanged { self.new ≡ record self.old { places = self.new.places } }
    {
        self.slab.reserve(1)
    }

    /// Puts a value in at the next slot, under an id with this serial, where there is room for it.
    pub(crate) fn insert(&mut self, serial: u64, value: T)
        requires { 0 < self.old.places }
        ensures inserted { self.new.values ≡ with_value (id_at self.old.slot serial) value self.old.values }
        ensures vacant { All (StandsElsewhere self.old.slot) self.old.values }
    {
        self.slab.insert_reserved(Stored { serial, value });
    }

    /// The value of an id.
    pub(crate) fn get(&self, id: MachineId) -> Option<&T>
        ensures { option_copied result ≡ value_in id self.now.values }
    {
        let stored = self.slab.get(id.slot)?;
        if stored.serial == id.serial {
            Some(&stored.value)
        } else {
            None
        }
    }

    /// The id of the value at a slot.
    pub(crate) fn id_at(&self, slot: usize) -> Option<MachineId>
        ensures there { IfSome result (λ id. (id.slot ≡ slot) × IsSome (value_in id self.now.values)) }

        ensures vacant { IfNone result (All (StandsElsewhere slot) self.now.values) }
    {
        let stored = self.slab.get(slot)?;
        let serial = stored.serial;
        Some(MachineId { slot, serial })
    }

    /// A copy of the ids, by rising slot.
    pub(crate) fn ids(&self, alloc: Global) -> Result<Vec<MachineId>, AllocError>
        ensures { IfOk result (λ ids. ids.items ≡ ids_of self.now.values) }
    {
        let mut ids = Vec::new(alloc);
        for (slot, stored) in self.slab.iter() {
            let serial = stored.serial;
            ids.push(MachineId { slot, serial })?;
        }
        Ok(ids)
    }

    /// Takes the value of an id out. Its slot is the next one then.
    pub(crate) fn remove(&mut self, id: MachineId) -> Option<T>
        ensures value { result ≡ value_in id self.old.values }
        ensures removed { IfSome result (λ value. self.new.values ≡ without_value id self.old.values) }
        ensures slot { IfSome result (λ value. self.new.slot ≡ id.slot) }

        ensures unchanged { IfNone result (self.new ≡ self.old) }
    {
        if self.get(id).is_none() {
            return None;
        }
        let Stored { serial: _, value } = self.slab.remove(id.slot);
        Some(value)
    }
}
