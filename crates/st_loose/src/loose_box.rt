//! A box in its parts.
ghost use Rattle.std.specs.Prelude.{◌≡◌};
ghost use Rattle.std.specs.Box.Ownership.{box_owns};

use std::alloc::Allocator;
use std::marker::Model;

/// A box in its parts. It owns what the box owned: the value at the pointer, and the right to free its block by the
/// allocator.
///
/// It has no `Drop`: it becomes a box again, or its parts go into a struct that owns as much.
pub struct LooseBox<T, A: Allocator> {
    pub at: *mut T,
    pub alloc: A,
    pub ghost value: { T },
}

impl<T, A: Allocator> Model for LooseBox<T, A> {
    ghost also_owns = { λ l. box_owns (A.dealloc_token l.alloc) T.row l.at l.value };
}

impl<T: Drop, A: Allocator> LooseBox<T, A> {
    /// The parts of a box.
    pub fn of(it: Box<T, A>) -> LooseBox<T, A>
        ensures value { result.value ≡ it.value }
    {
        let (at, alloc) = Box::into_raw_with_allocator(it);
        LooseBox { at, alloc }
    }

    /// The box of the parts.
    pub fn into_box(self) -> Box<T, A>
        ensures value { result.value ≡ self.value }
    {
        let LooseBox { at, alloc } = self;
        unsafe { Box::from_raw(alloc, at) }
    }
}
