//! Into a handle and out of it.
ghost use Rattle.std.specs.Prelude.{◌≡◌, ◌≢◌, ◌↔◌, true, Option, None, Some, Ok, IsTrue, IsSome, IfOk, IfErr};
ghost use Rattle.std.specs.Option.{option_map};
ghost use Rattle.st_embedded.specs.Table.{IsEmptyTable, IfOpen};

use crate::{Handle, Machines};
use st_loose::LooseBox;
use std::alloc::{AllocError, Global};
use std::mem::replace;
use std::ptr::null_mut;

impl Handle {
    /// A handle of nothing.
    fn empty() -> Handle
        ensures { result.value ≡ None }
    {
        Handle { at: null_mut() }
    }

    /// A handle of what is in a box.
    fn of_loose(it: LooseBox<Machines, Global>) -> Handle
        ensures { result.value ≡ Some it.value }
    {
        let LooseBox { at, alloc: _ } = it;
        Handle { at: at as *mut u8 }
    }

    /// What a handle has.
    fn into_loose(self, alloc: Global) -> Option<LooseBox<Machines, Global>>
        ensures { option_map (λ loose. loose.value) result ≡ self.value }
    {
        let Handle { at } = self;
        if at.is_null() {
            None
        } else {
            Some(LooseBox {
                at: at as *mut Machines,
                alloc,
            })
        }
    }

    /// Takes the table out, and leaves the handle closed.
    ///
    /// Ours: docs/EMBEDDING.md.
    pub fn take(&mut self, alloc: Global) -> Option<Box<Machines>>
        ensures taken { option_map (λ b. b.value) result ≡ self.old.value }
        ensures empty { self.new.value ≡ None }
    {
        match replace(self, Handle::empty()).into_loose(alloc) {
            Some(loose) => Some(loose.into_box()),
            None => None,
        }
    }

    /// Puts a table in. The one that was there is dropped.
    ///
    /// Ours: docs/EMBEDDING.md.
    pub fn put(&mut self, alloc: Global, it: Box<Machines>)
        ensures put { self.new.value ≡ Some it.value }
    {
        let old = replace(self, Handle::of_loose(LooseBox::of(it)));
        if let Some(loose) = old.into_loose(alloc) {
            drop(loose.into_box());
        }
    }

    /// Drops the table, and says whether there was one.
    ///
    /// Ours: docs/EMBEDDING.md.
    pub fn close(&mut self, alloc: Global) -> bool
        ensures closed { self.new.value ≡ None }
        ensures had { IsTrue result ↔ IsSome self.old.value }
    {
        self.take(alloc).is_some()
    }

    /// Puts an empty table in, and says so, unless there is one. It may find no memory; then nothing has changed.
    ///
    /// Ours: docs/EMBEDDING.md.
    pub fn open(&mut self, alloc: Global) -> Result<bool, AllocError>
        ensures opened { IfOk result (λ opened. IsTrue opened → (self.old.value ≡ None) × IfOpen self.new.value IsEmptyTable) }
        ensures was_open { IfOk result (λ opened. IsTrue opened ↔ (self.old.value ≡ None)) }
        ensures refused { IfErr result (λ _. self.old.value ≡ None) }
        ensures unchanged { result ≢ Ok true → self.new.value ≡ self.old.value }
    {
        if let Some(all) = self.take(alloc) {
            self.put(alloc, all);
            return Ok(false);
        }
        let all = Box::new(alloc, Machines::new(alloc))?;
        self.put(alloc, all);
        Ok(true)
    }
}
