//! What a register, or the argument of a signal, holds.
ghost use Rattle.std.specs.Prelude.{◌≡◌, IfOk};
ghost use Rattle.st_table.specs.Values.{same_value};
ghost use Rattle.st_table.specs.Equality.{values_per, values_equiv};

use crate::seen::{lent, owned, same_value};
use st_events::{MachineId, PlainList, PlainText, Tag};
use std::alloc::{AllocError, Global};

/// What a register, or the argument of a signal, holds.
///
/// Ours: an Erlang term, of which there are these.
#[derive(Drop)]
pub enum Value {
    /// Nothing yet. Where a number is wanted it counts as 0.
    Nothing,
    /// A number.
    Number(u64),
    /// The tag of a call, by which it can be answered later. Where a number is wanted it counts as 0. Manual: `from()`.
    Call(Tag),
    /// A machine, to which can be sent. Where a number is wanted it counts as 0.
    Machine(MachineId),
    /// A text. Where a number is wanted it counts as 0. A copy of it may find no memory.
    Text(PlainText),
}

/// Values that compare equal are one value.
impl PartialEq for Value {
    ghost eq = { same_value };

    ghost laws = { values_per };

    fn eq(&self, other: &Value) -> bool {
        same_value(lent(self), lent(other))
    }
}

impl Eq for Value {
    ghost laws = { values_equiv };
}

/// A copy of a value. Of a text it may find no memory.
pub(crate) fn copied(alloc: Global, value: &Value) -> Result<Value, AllocError>
    ensures { IfOk result (λ copy. copy ≡ value.now) }
{
    owned(alloc, lent(value))
}

/// Copies of values. It may find no memory for them.
pub(crate) fn all_copied(alloc: Global, values: &[Value]) -> Result<PlainList<Value>, AllocError>
    ensures { IfOk result (λ copies. copies ≡ values.now) }
{
    let mut copies = Vec::with_capacity(alloc, values.len())?;
    for value in values {
        copies.push(copied(alloc, value)?)?;
    }
    Ok(PlainList::from(copies))
}
