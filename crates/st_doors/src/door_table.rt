//! The doors of a script, by their numbers.
ghost use Rattle.std.specs.Prelude.{◌≡◌, ◌<◌, [], ◌∷◌, ◌++◌, Some, None, IfSome, IfNone, OnOk, OnErr, length, take, find, slice_get};
ghost use Rattle.std.specs.Borrow.{sem};
ghost use Rattle.st_doors.specs.Doors.{IsFirst};
ghost use Rattle.st_doors.specs.Numbers.{DoRise, has_number, unnumbered, kept_doors, without_number};
ghost use Rattle.st_doors.specs.Lending.{LendsDoor};

use crate::door_cell::DoorCell;
use std::alloc::{AllocError, Global};
use std::marker::Model;

/// A door under its name, with its number.
#[derive(Drop)]
struct NumberedDoor {
    number: u64,
    name: String,
    door: DoorCell,
}

/// Doors with their names and numbers, in order. Contracts see the list of them. Where the numbers rise, a number is
/// found by halves. Each lies in a box, since those behind a door that is removed move up.
#[derive(Drop)]
pub(crate) struct DoorTable {
    doors: Vec<Box<NumberedDoor>>,
}

impl Model for DoorTable {
    ghost use Rattle.std.specs.Prelude.{map};
    ghost use Rattle.st_doors.specs.Numbers.{NumberedDoors};

    ghost Value = { NumberedDoors };

    ghost view = { λ table. map (λ entry. (entry.value.number, (entry.value.name, entry.value.door))) table.doors.items };
}

impl DoorTable {
    /// No doors.
    pub(crate) fn new(alloc: Global) -> DoorTable
        ensures { result ≡ [] }
    {
        DoorTable {
            doors: Vec::new(alloc),
        }
    }

    /// How many doors there are.
    pub(crate) fn len(&self) -> usize
        ensures { result ≡ length self.now }
    {
        self.doors.len()
    }

    /// The place of a number.
    pub(crate) fn place_of(&self, number: u64) -> Option<usize>
        requires { DoRise 0 self.now }
        ensures place { IfSome result (IsFirst (has_number number) self.now) }

        ensures missing { IfNone result (find (has_number number) self.now ≡ None) }
    {
        self.doors
            .binary_search_by_key(&number, |door| door.number)
            .ok()
    }

    /// The name and the door at a place.
    pub(crate) fn entry_at(&self, place: usize) -> (&String, &DoorCell)
        requires { place < length self.now }
        ensures { slice_get (unnumbered self.now) place ≡ Some (result.0.now, result.1.now) }
    {
        let entry = &self.doors[place];
        (&entry.name, &entry.door)
    }

    /// The door at a place, to be changed.
    pub(crate) fn door_mut(&mut self, place: usize) -> &mut DoorCell
        requires { place < length self.old }
        ensures* writes_back { sem 𝓛 (LendsDoor self.entry place result) }
        ensures door { slice_get (kept_doors self.old) place ≡ Some result.now }
    {
        &mut self.doors[place].door
    }

    /// Puts a door behind the others.
    pub(crate) fn push(
        &mut self,
        alloc: Global,
        number: u64,
        name: String,
        door: DoorCell,
    ) -> Result<(), AllocError>
        ensures pushed { OnOk result (self.new ≡ self.old ++ (number, (name, door)) ∷ []) }

        ensures unchanged { OnErr result (self.new ≡ self.old) }
    {
        let entry = Box::new(alloc, NumberedDoor { number, name, door })?;
        self.doors.push(entry)?;
        Ok(())
    }

    /// Takes out the doors from a place on.
    pub(crate) fn truncate(&mut self, place: usize)
        ensures { self.new ≡ take place self.old }
    {
        self.doors.truncate(place);
    }

    /// Takes out the door of a number. The others keep their order.
    pub(crate) fn remove(&mut self, number: u64)
        requires { DoRise 0 self.old }
        ensures { self.new ≡ without_number number self.old }
    {
        if let Some(place) = self.place_of(number) {
            drop(self.doors.remove(place));
        }
    }
}
