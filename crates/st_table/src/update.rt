//! What registers are given.
ghost use Rattle.std.specs.Prelude.{◌≡◌, IfOk, OnOk, slice_set};
ghost use Rattle.st_table.specs.Values.{value_of};
ghost use Rattle.st_table.specs.Lent.{hears};
ghost use Rattle.st_table.specs.Rules.{updated};

use crate::at_hand::AtHand;
use crate::expression::value_of;
use crate::seen::owned;
use crate::value::all_copied;
use crate::{Expression, Value};
use st_events::PlainList;
use std::alloc::{AllocError, Global};

/// A register is given a value.
#[derive(Drop)]
pub struct Update {
    /// The register's number, from 0 on. Where there are not so many, nothing changes.
    pub register: u32,
    /// The value. It sees the registers after the updates before it.
    pub value: Expression,
}

/// Gives a register a value. Where there are not so many, nothing changes.
fn assign(registers: &mut Vec<Value>, index: u32, value: Value)
    ensures { registers.new.items ≡ slice_set registers.old.items index value }
{
    if let Some(place) = registers.get_mut(index as usize) {
        *place = value;
    }
}

/// One update. Of a text it may find no memory.
fn update_one(
    alloc: Global,
    registers: &mut Vec<Value>,
    update: &Update,
    at: AtHand<'_>,
    before: &[Value],
) -> Result<(), AllocError>
    ensures { OnOk result (registers.new.items ≡ slice_set registers.old.items update.now.register (value_of (hears at.entry) before.now registers.old.items update.now.value)) }
{
    let value = owned(
        alloc,
        value_of(&update.value, at, before, registers.as_slice()),
    )?;
    assign(registers, update.register, value);
    Ok(())
}

/// The registers after updates, which begin with these. It may find no memory for them.
pub(crate) fn updated(
    alloc: Global,
    updates: &[Update],
    at: AtHand<'_>,
    before: &[Value],
    first: &[Value],
) -> Result<PlainList<Value>, AllocError>
    ensures { IfOk result (λ after. after ≡ updated (hears at.entry) before.now updates.now first.now) }
{
    let mut registers = all_copied(alloc, first)?.into_vec();
    for update in updates {
        update_one(alloc, &mut registers, update, at, before)?;
    }
    Ok(PlainList::from(registers))
}
