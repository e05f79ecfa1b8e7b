//! What comes of an event.
ghost use Rattle.std.specs.Prelude.{◌≡◌, IfOk, option_copied};
ghost use Rattle.st_events.specs.declared.outcome.Outcome.TheVariants.{NextState};
ghost use Rattle.st_table.specs.Lent.{hears};
ghost use Rattle.st_table.specs.Rules.{actions_of, replies_of};
ghost use Rattle.st_table.specs.Calls.{new_data, after_of, short_number_of, keeps, repeats, stops, leads_to, taken, handle_of};

use crate::actions::actions_of;
use crate::at_hand::AtHand;
use crate::expression::short_number_of;
use crate::matching::{heard_of, rule_of};
use crate::replies::replies_of;
use crate::update::updated;
use crate::value::all_copied;
use crate::{Expression, Place, Rule, Signal, Table, Target, Value};
use st_events::{Actions, Kind, Outcome, PlainList, Reason, Replies};
use std::alloc::{AllocError, Global};

/// What `handle` answers.
pub(crate) type Handled = Outcome<Place, PlainList<Value>, Signal>;

/// The registers after a rule that changes any. It may find no memory for them.
pub(crate) fn new_data(
    alloc: Global,
    rule: &Rule,
    at: AtHand<'_>,
    registers: &[Value],
) -> Result<Option<PlainList<Value>>, AllocError>
    ensures { IfOk result (λ new. new ≡ new_data (hears at.entry) registers.now rule.now.updates) }
{
    match rule.updates.as_slice() {
        [] => Ok(None),
        [_, ..] => {
            let updates = rule.updates.as_slice();
            Ok(Some(updated(alloc, updates, at, registers, registers)?))
        }
    }
}

/// The registers after a rule: the new ones, or those before it.
pub(crate) fn after_of<'a>(new: &'a Option<PlainList<Value>>, before: &'a [Value]) -> &'a [Value]
    ensures { result.now ≡ after_of new.now before.now }
{
    match new {
        Some(after) => after.as_slice(),
        None => before,
    }
}

/// The registers after a rule, to be handed out. Where it changes none it may find no memory for the copy.
fn registers_after(
    alloc: Global,
    new: Option<PlainList<Value>>,
    before: &[Value],
) -> Result<PlainList<Value>, AllocError>
    ensures { IfOk result (λ after. after ≡ after_of new before.now) }
{
    match new {
        Some(after) => Ok(after),
        None => all_copied(alloc, before),
    }
}

/// The state stays.
fn keeps(
    alloc: Global,
    rule: &Rule,
    at: AtHand<'_>,
    before: &[Value],
    new: Option<PlainList<Value>>,
) -> Result<Handled, AllocError>
    ensures { IfOk result (λ outcome. outcome ≡ keeps new (actions_of (hears at.entry) before.now (after_of new before.now) rule.now.asks)) }
{
    let asks = rule.asks.as_slice();
    let actions = actions_of(alloc, at, before, after_of(&new, before), asks)?;
    match new {
        Some(after) => Ok(Outcome::KeepState(after, actions)),
        None => Ok(Outcome::KeepStateAndData(actions)),
    }
}

/// The state stays, and is entered again.
fn repeats(
    alloc: Global,
    rule: &Rule,
    at: AtHand<'_>,
    before: &[Value],
    new: Option<PlainList<Value>>,
) -> Result<Handled, AllocError>
    ensures { IfOk result (λ outcome. outcome ≡ repeats new (actions_of (hears at.entry) before.now (after_of new before.now) rule.now.asks)) }
{
    let asks = rule.asks.as_slice();
    let actions = actions_of(alloc, at, before, after_of(&new, before), asks)?;
    match new {
        Some(after) => Ok(Outcome::RepeatState(after, actions)),
        None => Ok(Outcome::RepeatStateAndData(actions)),
    }
}

/// The state changes.
fn moves(
    alloc: Global,
    rule: &Rule,
    place: Place,
    at: AtHand<'_>,
    before: &[Value],
    new: Option<PlainList<Value>>,
) -> Result<Handled, AllocError>
    ensures { IfOk result (λ outcome. outcome ≡ NextState place (after_of new before.now) (actions_of (hears at.entry) before.now (after_of new before.now) rule.now.asks)) }
{
    let after = registers_after(alloc, new, before)?;
    let asks = rule.asks.as_slice();
    let actions = actions_of(alloc, at, before, after.as_slice(), asks)?;
    Ok(Outcome::NextState(place, after, actions))
}

/// The machine ends: with replies, where there are any.
fn stops(reason: Reason, replies: Replies<Signal>, new: Option<PlainList<Value>>) -> Handled
    ensures { result ≡ stops reason replies new }
{
    if replies.is_empty() {
        Outcome::Stop(reason, new)
    } else {
        Outcome::StopAndReply(reason, replies, new)
    }
}

/// The machine ends.
fn ends(
    alloc: Global,
    rule: &Rule,
    reason: &Expression,
    at: AtHand<'_>,
    before: &[Value],
    new: Option<PlainList<Value>>,
) -> Result<Handled, AllocError>
    ensures { IfOk result (λ outcome. outcome ≡ stops (short_number_of (hears at.entry) before.now (after_of new before.now) reason.now) (replies_of (hears at.entry) before.now (after_of new before.now) rule.now.asks) new) }
{
    let after = after_of(&new, before);
    let reason = short_number_of(reason, at, before, after);
    let replies = replies_of(alloc, at, before, after, rule.asks.as_slice())?;
    Ok(stops(reason, replies, new))
}

/// What a rule leads to.
fn leads_to(
    alloc: Global,
    rule: &Rule,
    at: AtHand<'_>,
    before: &[Value],
    new: Option<PlainList<Value>>,
) -> Result<Handled, AllocError>
    ensures { IfOk result (λ outcome. outcome ≡ leads_to rule.now.target rule.now (hears at.entry) before.now new) }
{
    match &rule.target {
        Target::Keep => keeps(alloc, rule, at, before, new),
        Target::Next(place) => moves(alloc, rule, *place, at, before, new),
        Target::Repeat => repeats(alloc, rule, at, before, new),
        Target::Stop(reason) => ends(alloc, rule, reason, at, before, new),
    }
}

/// What comes of a rule that is taken, or of none.
fn taken(
    alloc: Global,
    rule: Option<&Rule>,
    at: AtHand<'_>,
    registers: &[Value],
) -> Result<Handled, AllocError>
    ensures { IfOk result (λ outcome. outcome ≡ taken (option_copied rule.entry) (hears at.entry) registers.now) }
{
    match rule {
        None => Ok(Outcome::KeepStateAndData(Actions::new(alloc))),
        Some(rule) => {
            let new = new_data(alloc, rule, at, registers)?;
            leads_to(alloc, rule, at, registers, new)
        }
    }
}

/// What comes of an event.
pub(crate) fn handle_of(
    alloc: Global,
    table: &Table,
    kind: Kind,
    signal: &Signal,
    state: Place,
    registers: &[Value],
) -> Result<Handled, AllocError>
    ensures { IfOk result (λ outcome. outcome ≡ handle_of table.now kind signal.now state registers.now) }
{
    let rule = rule_of(table, kind, signal, state, registers);
    taken(alloc, rule, heard_of(kind, signal), registers)
}
