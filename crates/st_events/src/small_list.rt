//! Short lists that contracts see as lists.
ghost use Rattle.std.specs.Prelude.{◌≡◌, ◌↔◌, ◌<◌, [], ◌∷◌, ◌++◌, Some, length, reverse, slice_get, slice_set, option_copied, IsTrue, IsNone, IsOk, IfNone, OnOk, OnErr, IfErr};
ghost use Rattle.std.specs.Option.{option_to_list, option_flatten};
ghost use Rattle.st_events.specs.Places.{present, IsFull};

use crate::Places;
use smallvec::SmallVec;
use std::alloc::{AllocFailed, Global};
use std::fmt::{self, Debug, Formatter, Write};
use std::marker::Model;

/// A list of which up to four elements lie in the value itself. Contracts see its elements alone.
///
/// Ours: docs/DECISIONS.md, Lists in values that definitions compare.
#[derive(Drop)]
pub struct SmallList<T> {
    // Each is `Some`: an inline place that is not used holds `None`, so that no element needs a blank.
    pub(crate) elements: SmallVec<Option<T>, 4>,
}

impl<T> Model for SmallList<T> {
    ghost use Rattle.std.specs.Prelude.{List, ◌≤◌};

    ghost Value = { List T };

    ghost use Rattle.st_events.specs.Places.{present, IsFull};

    ghost view = { λ list. present list.elements.items };

    ghost invariant = { λ list. (4 ≤ list.elements.capacity) × IsFull list.elements.items };
}

impl<T: Drop> SmallList<T> {
    /// No element. It takes no memory.
    pub fn new(alloc: Global) -> SmallList<T>
        ensures { result ≡ [] }
    {
        SmallList {
            elements: SmallVec::new(alloc),
        }
    }

    /// Adds an element at the end. Of a list of fewer than four this takes no memory. Where memory is
    /// wanted and there is none, the list stays and the element comes back.
    pub fn push(&mut self, element: T) -> Result<(), AllocFailed<T>>
        ensures pushed { OnOk result (self.new ≡ self.old ++ element ∷ []) }
        ensures inline { length self.old < 4 → IsOk result }

        ensures unchanged { OnErr result (self.new ≡ self.old) }
        ensures value_returned { IfErr result (λ failed. failed.value ≡ element) }
    {
        if self.elements.reserve(1).is_err() {
            return Err(AllocFailed { value: element });
        }
        self.elements.push_reserved(Some(element));
        Ok(())
    }

    /// Takes the last element out, or answers `None` where there is none. It takes no memory.
    pub fn pop(&mut self) -> Option<T>
        ensures popped { self.old ≡ self.new ++ option_to_list result }

        ensures end { IsNone result ↔ (self.old ≡ []) }
        ensures unchanged { IfNone result (self.new ≡ self.old) }
    {
        match self.elements.pop() {
            Some(element) => element,
            None => None,
        }
    }
}

impl<T> SmallList<T> {
    /// How many elements there are.
    pub fn len(&self) -> usize
        ensures length { result ≡ length self.now }
    {
        self.elements.len()
    }

    /// Says whether there is no element.
    pub fn is_empty(&self) -> bool
        ensures empty { IsTrue result ↔ (self.now ≡ []) }
    {
        self.elements.is_empty()
    }

    /// The element at an index, counted from 0, or `None` where there are not so many.
    pub fn get(&self, index: usize) -> Option<&T>
        ensures element { option_copied result ≡ slice_get self.now index }
    {
        match self.elements.as_slice().get(index) {
            Some(place) => place.as_ref(),
            None => None,
        }
    }

    /// Puts an element in the place of another, which is handed out. Where there are not so many, the list stays, the
    /// element is let go, and the answer is `None`. It takes no memory.
    pub fn replace(&mut self, index: usize, element: T) -> Option<T>
    where
        T: Drop,
        ensures replaced { result ≡ slice_get self.old index }
        ensures put_in { self.new ≡ slice_set self.old index element }
    {
        replace_in(&mut self.elements, index, element)
    }

    /// Turns the order of the elements round. It takes no memory.
    pub fn reverse(&mut self)
        ensures reversed { self.new ≡ reverse self.old }
    {
        self.elements.as_mut_slice().reverse();
    }

    /// The places of the elements, from which they can be taken in their order. It takes no memory.
    pub fn into_places(self) -> Places<T>
        ensures full { IsFull result }
        ensures elements { present result ≡ self }
    {
        Places {
            places: self.elements,
        }
    }
}

/// Puts an element in a place, and hands out what was there. Where there are not so many, nothing changes.
fn replace_in<T: Drop>(places: &mut SmallVec<Option<T>, 4>, index: usize, element: T) -> Option<T>
    ensures replaced { result ≡ option_flatten (slice_get places.old.items index) }
    ensures put_in { places.new.items ≡ slice_set places.old.items index (Some element) }
    ensures capacity { places.new.capacity ≡ places.old.capacity }
{
    match places.get_mut(index) {
        Some(place) => place.replace(element),
        None => None,
    }
}

/// It is shown as its elements are, as a list.
impl<T: Debug> Debug for SmallList<T> {
    fn fmt<W: Write>(&self, f: &mut Formatter<W>) -> fmt::Result {
        f.debug_list()
            .entries(self.elements.as_slice().iter().flatten())
            .finish()
    }
}
