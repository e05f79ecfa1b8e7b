//! Which places in the table the doors of a script take.
ghost use Rattle.std.specs.Prelude.{◌≡◌, ◌<◌, true, false, [], length, IfOk, OnErr, slice_set};
ghost use Rattle.st_doors.specs.Slots.{HaveSameMarks, IsLeastFree};

use std::alloc::{AllocError, Global};
use std::marker::Model;

/// Which places in the table are taken: one mark for each, of which there are as many as doors stood there at once. No
/// place below `least` is free. Contracts see the marks.
///
/// Ours: docs/SCRIPTS.md.
#[derive(Drop)]
pub struct FreeSlots {
    marks: Vec<bool>,
    least: usize,
}

impl Model for FreeSlots {
    ghost use Rattle.std.specs.Prelude.{◌≡◌, ◌<◌, ◌≤◌, ℕ, Bool, true, List, length};
    ghost use Rattle.st_doors.specs.Slots.{is_marked};

    ghost Value = { List Bool };

    ghost view = { λ slots. slots.marks.items };

    ghost invariant = { λ slots. (slots.least ≤ length slots.marks.items) × ((slot : ℕ) → slot < slots.least → is_marked slots.marks.items slot ≡ true) };
}

impl FreeSlots {
    /// No place is taken. It takes no memory.
    ///
    /// Ours: docs/SCRIPTS.md.
    pub fn new(alloc: Global) -> FreeSlots
        ensures { result ≡ [] }
    {
        FreeSlots {
            marks: Vec::new(alloc),
            least: 0,
        }
    }

    /// The least place that is free. From then on there is a mark for it.
    ///
    /// Ours: docs/SCRIPTS.md.
    pub fn least_free(&mut self) -> Result<usize, AllocError>
        ensures free { IfOk result (λ slot. IsLeastFree self.new slot) }

        // Whatever the answer is.
        ensures same { HaveSameMarks self.old self.new }
    {
        while self.least < self.marks.len() && self.marks[self.least] {
            self.least += 1;
        }
        if self.least == self.marks.len() {
            self.marks.push(false)?;
        }
        Ok(self.least)
    }

    /// Marks a place.
    ///
    /// Ours: docs/SCRIPTS.md.
    pub fn take(&mut self, slot: usize)
        requires { slot < length self.old }
        ensures { self.new ≡ slice_set self.old slot true }
    {
        self.marks[slot] = true;
    }

    /// Takes the mark of a place away.
    ///
    /// Ours: docs/SCRIPTS.md.
    pub fn free(&mut self, slot: usize)
        requires { slot < length self.old }
        ensures { self.new ≡ slice_set self.old slot false }
    {
        self.marks[slot] = false;
        self.least = self.least.min(slot);
    }
}
