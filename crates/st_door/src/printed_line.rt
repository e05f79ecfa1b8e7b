//! What a line prints.
ghost use Rattle.std.specs.Prelude.{◌≡◌, IfOk};
ghost use Rattle.st_door.specs.Script.{printed_of};

use crate::effect::Effect;
use st_events::PlainText;
use std::alloc::{AllocError, Global};

/// What the line of a number prints.
pub fn printed(alloc: Global, number: u64, effect: Effect) -> Result<PlainText, AllocError>
    ensures { IfOk result (λ text. text ≡ printed_of number effect) }
{
    match effect {
        Effect::Silent => Ok(PlainText::from(String::new(alloc))),
        Effect::Printed(text) => Ok(text),
        Effect::Refuses(refusal) => {
            let refusal = refusal.number();
            Ok(PlainText::from(format!(in alloc; "line {number} refused {refusal}\n")?))
        }
        Effect::Malformed => Ok(PlainText::from(format!(in alloc; "line {number} malformed\n")?)),
    }
}
