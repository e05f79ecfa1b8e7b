//! What is said.
ghost use Rattle.std.specs.Prelude.{◌≡◌, IfOk};
ghost use Rattle.st_table.specs.Rules.{said};
ghost use Rattle.st_table.specs.Lent.{hears};

use crate::at_hand::AtHand;
use crate::expression::value_of;
use crate::seen::owned;
use crate::{Expression, Signal, Value};
use std::alloc::{AllocError, Global};

/// What is said: a symbol, and an argument that is computed. It gives a signal.
#[derive(Drop)]
pub struct Say {
    /// The symbol's number among the names.
    pub symbol: u32,
    /// The argument.
    pub argument: Expression,
}

/// The signal that is said. Of a text it may find no memory.
pub(crate) fn said(
    alloc: Global,
    at: AtHand<'_>,
    before: &[Value],
    registers: &[Value],
    say: &Say,
) -> Result<Signal, AllocError>
    ensures { IfOk result (λ signal. signal ≡ said (hears at.entry) before.now registers.now say.now) }
{
    Ok(Signal {
        symbol: say.symbol,
        argument: owned(alloc, value_of(&say.argument, at, before, registers))?,
    })
}
