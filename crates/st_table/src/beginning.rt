//! What comes of a start.
ghost use Rattle.std.specs.Prelude.{◌≡◌, IfOk, option_copied};
ghost use Rattle.st_table.specs.Lent.{hears};
ghost use Rattle.st_table.specs.Calls.{starting, start_leads_to, started, init_of};

use crate::actions::actions_of;
use crate::at_hand::AtHand;
use crate::expression::short_number_of;
use crate::matching::first_guarded;
use crate::seen::Seen;
use crate::update::updated;
use crate::{Place, Rule, Signal, Table, Target, Value};
use st_events::{Init, PlainList};
use std::alloc::{AllocError, Global};

/// What `init` answers.
pub(crate) type Begun = Init<Place, PlainList<Value>, Signal>;

/// What is at hand at a start.
fn starting() -> AtHand<'static>
    ensures { hears result ≡ starting }
{
    AtHand {
        tag: None,
        argument: Seen::Nothing,
    }
}

/// What a rule of a start leads to.
fn start_leads_to(
    alloc: Global,
    rule: &Rule,
    given: &[Value],
    after: PlainList<Value>,
) -> Result<Begun, AllocError>
    ensures { IfOk result (λ begun. begun ≡ start_leads_to rule.now.target rule.now given.now after) }
{
    let at = starting();
    match &rule.target {
        Target::Next(place) => {
            let asks = rule.asks.as_slice();
            let actions = actions_of(alloc, at, given, after.as_slice(), asks)?;
            Ok(Init::Ok(*place, after, actions))
        }
        Target::Stop(reason) => {
            let reason = short_number_of(reason, at, given, after.as_slice());
            Ok(Init::Stop(reason))
        }
        _ => Ok(Init::Ignore),
    }
}

/// What comes of a rule of a start, or of none.
fn started(
    alloc: Global,
    rule: Option<&Rule>,
    given: &[Value],
    registers: &[Value],
) -> Result<Begun, AllocError>
    ensures { IfOk result (λ begun. begun ≡ started (option_copied rule.entry) given.now registers.now) }
{
    match rule {
        None => Ok(Init::Ignore),
        Some(rule) => {
            let updates = rule.updates.as_slice();
            let after = updated(alloc, updates, starting(), given, registers)?;
            start_leads_to(alloc, rule, given, after)
        }
    }
}

/// What comes of a start.
pub(crate) fn init_of(alloc: Global, table: &Table, given: &[Value]) -> Result<Begun, AllocError>
    ensures { IfOk result (λ begun. begun ≡ init_of table.now given.now) }
{
    let registers = table.registers.as_slice();
    let rule = first_guarded(starting(), given, registers, table.start.as_slice());
    started(alloc, rule, given, registers)
}
