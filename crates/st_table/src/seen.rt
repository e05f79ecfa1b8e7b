//! A value that is read and not owned.
ghost use Rattle.std.specs.Prelude.{◌≡◌, IfOk};
ghost use Rattle.st_table.specs.Values.{number_of, same_value};
ghost use Rattle.st_table.specs.Lent.{shown};

use crate::Value;
use st_events::{MachineId, PlainText, Tag};
use std::alloc::{AllocError, Global};

/// A value that is read: a text is lent, so that reading takes no memory.
#[derive(Clone, Copy)]
pub(crate) enum Seen<'a> {
    /// Nothing.
    Nothing,
    /// A number.
    Number(u64),
    /// The tag of a call.
    Call(Tag),
    /// A machine.
    Machine(MachineId),
    /// A text.
    Text(&'a str),
}

/// A value, to be read.
pub(crate) fn lent(value: &Value) -> Seen<'_>
    ensures { shown result ≡ value.now }
{
    match value {
        Value::Nothing => Seen::Nothing,
        Value::Number(number) => Seen::Number(*number),
        Value::Call(tag) => Seen::Call(*tag),
        Value::Machine(id) => Seen::Machine(*id),
        Value::Text(text) => Seen::Text(text.as_str()),
    }
}

/// The value that was read, to be owned. Of a text it may find no memory.
pub(crate) fn owned(alloc: Global, seen: Seen<'_>) -> Result<Value, AllocError>
    ensures { IfOk result (λ value. value ≡ shown seen.entry) }
{
    match seen {
        Seen::Nothing => Ok(Value::Nothing),
        Seen::Number(number) => Ok(Value::Number(number)),
        Seen::Call(tag) => Ok(Value::Call(tag)),
        Seen::Machine(id) => Ok(Value::Machine(id)),
        Seen::Text(text) => Ok(Value::Text(PlainText::copied(alloc, text)?)),
    }
}

/// The number that a value is; 0 for one that is none.
pub(crate) fn number_of(value: Seen<'_>) -> u64
    ensures { result ≡ number_of (shown value.entry) }
{
    match value {
        Seen::Number(number) => number,
        _ => 0,
    }
}

/// Whether two values are one.
pub(crate) fn same_value(one: Seen<'_>, other: Seen<'_>) -> bool
    ensures { result ≡ same_value (shown one.entry) (shown other.entry) }
{
    match (one, other) {
        (Seen::Nothing, Seen::Nothing) => true,
        (Seen::Number(one), Seen::Number(other)) => one == other,
        (Seen::Call(one), Seen::Call(other)) => {
            one.machine.slot == other.machine.slot
                && one.machine.serial == other.machine.serial
                && one.request == other.request
        }
        (Seen::Machine(one), Seen::Machine(other)) => {
            one.slot == other.slot && one.serial == other.serial
        }
        (Seen::Text(one), Seen::Text(other)) => one == other,
        _ => false,
    }
}
