//! The places of a short list whose elements leave it.
ghost use Rattle.std.specs.Prelude.{◌≡◌};
ghost use Rattle.st_events.specs.Places.{present, IsFull};

use crate::Elements;
use smallvec::SmallVec;
use std::marker::Model;

/// The places of what was a short list: its elements are taken out of them, in their order. Up to four lie
/// in the value itself.
#[derive(Drop)]
pub struct Places<T> {
    pub(crate) places: SmallVec<Option<T>, 4>,
}

impl<T> Model for Places<T> {
    ghost use Rattle.std.specs.Prelude.{List, Option};

    ghost Value = { List (Option T) };

    ghost view = { λ places. places.places.items };
}

impl<T> Places<T> {
    /// Takes the elements out of their places, one after the other, in their order. It takes no memory.
    pub fn take_each(&mut self) -> Elements<'_, T>
        requires full { IsFull self.old }
        ensures elements { result ≡ present self.old }
    {
        Elements {
            places: self.places.as_mut_slice().iter_mut(),
        }
    }
}
