//! The handle by which another language holds a table.
ghost use Rattle.std.specs.Prelude.{◌≡◌, Option, None, Some};
ghost use Rattle.std.specs.Box.Ownership.{box_owns};
ghost use Rattle.std.specs.Coded.{coded_option};
ghost use Rattle.std.specs.contracts.impls.GlobalAllocator.TheImpl.{ghosts};
ghost use base.Fml.{Fml, ftrue, feq};
ghost use denote.RawPtr.{Ptr, null_ptr};
ghost use Rattle.st_embedded.specs.declared.machines.Machines.{Machines};
ghost use Rattle.st_embedded.specs.contracts.machines.Machines.{the_row};

use std::alloc::Global;
use std::marker::Model;

/// A table, or none, in a struct of one pointer that is null where there is none. It may go to another thread.
///
/// Ours: docs/EMBEDDING.md.
#[repr(C)]
pub struct Handle {
    pub(crate) at: *mut u8,
    pub ghost value: { Option Machines } by { coded_option the_row.coded },
}

unsafe impl Send for Handle {}

impl Model for Handle {
    ghost also_owns = { λ p. elim p.value as (λ v. Fml) [
      | None ↦ feq Ptr p.at null_ptr
      | Some it ↦ box_owns (ghosts.dealloc_token (record { memory = record { seal = tt } })) the_row p.at it
    ] };
}
