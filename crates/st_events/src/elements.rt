//! The elements of a short list, one after the other.
ghost use Rattle.std.specs.Iterator.{YieldsFirst, item_count};

use std::marker::Model;
use std::slice::IterMut;

/// The elements that are left of a short list, by value, in their order. Contracts see them as a list.
///
/// Each is taken out of its place as it comes; those that are left stay in theirs.
#[derive(Drop)]
pub struct Elements<'a, T> {
    // Each holds `Some`.
    pub(crate) places: IterMut<'a, Option<T>>,
}

impl<'a, T> Model for Elements<'a, T> {
    ghost use Rattle.std.specs.Prelude.{List};
    ghost use Rattle.std.specs.Slice.Iter.{iter_mut_rest};

    ghost Value = { List T };

    ghost use Rattle.st_events.specs.Places.{present, IsFull};

    ghost view = { λ elements. present (iter_mut_rest elements.places) };

    ghost invariant = { λ elements. IsFull (iter_mut_rest elements.places) };
}

impl<'a, T: Drop> Iterator for Elements<'a, T> {
    type Item = T;

    ghost next_gives = { YieldsFirst (λ rest. rest) };

    ghost remaining = { item_count (λ rest. rest) };

    fn next(&mut self) -> Option<T> {
        self.places.next()?.take()
    }
}
