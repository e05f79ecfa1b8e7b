//! What comes of an entry.
ghost use Rattle.std.specs.Prelude.{◌≡◌, IfOk, option_copied};
ghost use Rattle.st_table.specs.Lent.{hears};
ghost use Rattle.st_table.specs.Rules.{enter_actions_of, replies_of};
ghost use Rattle.st_table.specs.Calls.{after_of, short_number_of, entering, enter_keeps, enter_stops, enter_leads_to, entered, enter_of};

use crate::at_hand::AtHand;
use crate::enter_actions::enter_actions_of;
use crate::expression::short_number_of;
use crate::handling::{after_of, new_data};
use crate::matching::{entries_in, first_guarded};
use crate::replies::replies_of;
use crate::seen::Seen;
use crate::{Expression, Place, Rule, Signal, Table, Target, Value};
use st_events::{EnterActions, EnterOutcome, PlainList, Reason, Replies};
use std::alloc::{AllocError, Global};

/// What `enter` answers.
pub(crate) type Entered = EnterOutcome<PlainList<Value>, Signal>;

/// What is at hand where a state is entered.
fn entering(old: Place) -> AtHand<'static>
    ensures { hears result ≡ entering old }
{
    AtHand {
        tag: None,
        argument: Seen::Number(u64::from(old.number)),
    }
}

/// The machine goes on.
fn enter_keeps(
    alloc: Global,
    rule: &Rule,
    at: AtHand<'_>,
    before: &[Value],
    new: Option<PlainList<Value>>,
) -> Result<Entered, AllocError>
    ensures { IfOk result (λ outcome. outcome ≡ enter_keeps new (enter_actions_of (hears at.entry) before.now (after_of new before.now) rule.now.asks)) }
{
    let asks = rule.asks.as_slice();
    let actions = enter_actions_of(alloc, at, before, after_of(&new, before), asks)?;
    match new {
        Some(after) => Ok(EnterOutcome::KeepState(after, actions)),
        None => Ok(EnterOutcome::KeepStateAndData(actions)),
    }
}

/// The machine ends: with replies, where there are any.
fn enter_stops(reason: Reason, replies: Replies<Signal>, new: Option<PlainList<Value>>) -> Entered
    ensures { result ≡ enter_stops reason replies new }
{
    if replies.is_empty() {
        EnterOutcome::Stop(reason, new)
    } else {
        EnterOutcome::StopAndReply(reason, replies, new)
    }
}

/// The machine ends.
fn enter_ends(
    alloc: Global,
    rule: &Rule,
    reason: &Expression,
    at: AtHand<'_>,
    before: &[Value],
    new: Option<PlainList<Value>>,
) -> Result<Entered, AllocError>
    ensures { IfOk result (λ outcome. outcome ≡ enter_stops (short_number_of (hears at.entry) before.now (after_of new before.now) reason.now) (replies_of (hears at.entry) before.now (after_of new before.now) rule.now.asks) new) }
{
    let after = after_of(&new, before);
    let reason = short_number_of(reason, at, before, after);
    let replies = replies_of(alloc, at, before, after, rule.asks.as_slice())?;
    Ok(enter_stops(reason, replies, new))
}

/// What an entry leads to.
fn enter_leads_to(
    alloc: Global,
    rule: &Rule,
    at: AtHand<'_>,
    before: &[Value],
    new: Option<PlainList<Value>>,
) -> Result<Entered, AllocError>
    ensures { IfOk result (λ outcome. outcome ≡ enter_leads_to rule.now.target rule.now (hears at.entry) before.now new) }
{
    match &rule.target {
        Target::Stop(reason) => enter_ends(alloc, rule, reason, at, before, new),
        _ => enter_keeps(alloc, rule, at, before, new),
    }
}

/// What comes of an entry, or of none.
fn entered(
    alloc: Global,
    rule: Option<&Rule>,
    at: AtHand<'_>,
    registers: &[Value],
) -> Result<Entered, AllocError>
    ensures { IfOk result (λ outcome. outcome ≡ entered (option_copied rule.entry) (hears at.entry) registers.now) }
{
    match rule {
        None => Ok(EnterOutcome::KeepStateAndData(EnterActions::new(alloc))),
        Some(rule) => {
            let new = new_data(alloc, rule, at, registers)?;
            enter_leads_to(alloc, rule, at, registers, new)
        }
    }
}

/// What comes of an enter call.
pub(crate) fn enter_of(
    alloc: Global,
    table: &Table,
    old: Place,
    state: Place,
    registers: &[Value],
) -> Result<Entered, AllocError>
    ensures { IfOk result (λ outcome. outcome ≡ enter_of table.now old state registers.now) }
{
    let at = entering(old);
    let entries = entries_in(table, state);
    let rule = first_guarded(at, registers, registers, entries);
    entered(alloc, rule, at, registers)
}
