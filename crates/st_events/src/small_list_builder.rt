//! Short lists in the making.
ghost use Rattle.std.specs.Prelude.{◌≡◌, ◌<◌, ◌≤◌, [], max, IsOk, IfOk};
ghost use Rattle.st_events.specs.Building.{with_element};

use crate::SmallList;
use smallvec::SmallVec;
use std::alloc::{AllocError, Global};
use std::marker::Model;

/// A list in the making, for which memory is reserved first: after that no call can fail.
///
/// Ours: docs/DECISIONS.md, Small vectors want a blank element.
#[derive(Drop)]
pub struct SmallListBuilder<T> {
    // Each is `Some`, as in the list that they become. Reserved is the capacity that is left.
    elements: SmallVec<Option<T>, 4>,
}

impl<T> Model for SmallListBuilder<T> {
    ghost use Rattle.std.specs.Prelude.{◌-◌, ◌≤◌, length};
    ghost use Rattle.st_events.specs.Building.{Building};

    ghost Value = { Building T };

    ghost use Rattle.st_events.specs.Places.{present, IsFull};

    ghost view = { λ builder. record { items = present builder.elements.items; reserved = builder.elements.capacity - length builder.elements.items } };

    ghost invariant = { λ builder. (4 ≤ builder.elements.capacity) × IsFull builder.elements.items };
}

impl<T: Drop> SmallListBuilder<T> {
    /// No element yet, and places reserved for so many, at least four. For up to four this takes no memory. Where
    /// memory is wanted and there is none, there is no list.
    pub fn with_reserved(alloc: Global, count: usize) -> Result<SmallListBuilder<T>, AllocError>
        ensures reserved { IfOk result (λ builder. builder ≡ record { items = []; reserved = max 4 count }) }

        ensures inline { count ≤ 4 → IsOk result }
    {
        Ok(SmallListBuilder {
            elements: SmallVec::with_capacity(alloc, count)?,
        })
    }

    /// Adds an element at the end, in a place that was reserved. It cannot fail.
    pub fn push(&mut self, element: T)
        requires { 0 < self.old.reserved }
        ensures pushed { self.new ≡ with_element self.old element }
    {
        self.elements.push_reserved(Some(element));
    }

    /// The list of the elements, in the order in which they came. It takes no memory.
    pub fn finish(self) -> SmallList<T>
        ensures { result ≡ self.items }
    {
        let SmallListBuilder { elements } = self;
        SmallList { elements }
    }
}
