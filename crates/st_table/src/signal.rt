//! What events, replies and messages carry.
ghost use Rattle.std.specs.Prelude.{◌≡◌, IfOk};

use crate::Value;
use crate::value::copied as copied_value;
use std::alloc::{AllocError, Global};

/// The content of events, of replies and of messages: a symbol, by its number, and an argument.
///
/// Names of symbols stand outside: whoever reads and prints signals keeps them.
#[derive(PartialEq, Eq, Drop)]
pub struct Signal {
    /// The symbol's number among the names.
    pub symbol: u32,
    /// What it is said with.
    pub argument: Value,
}

/// A copy of a signal. Of a text it may find no memory.
pub(crate) fn copied(alloc: Global, signal: &Signal) -> Result<Signal, AllocError>
    ensures { IfOk result (λ copy. copy ≡ signal.now) }
{
    Ok(Signal {
        symbol: signal.symbol,
        argument: copied_value(alloc, &signal.argument)?,
    })
}
