//! Which rule is taken.
ghost use Rattle.std.specs.Prelude.{◌≡◌, option_copied, slice_get};
ghost use Rattle.std.specs.List.{find, list_all};
ghost use Rattle.st_table.specs.Lent.{shown, hears};
ghost use Rattle.st_table.specs.Matching.{tag_of, heard_of, is_kind, is_symbol, compares, holds, is_guarded, fits, rules_in, entries_in, rule_of};

use crate::at_hand::AtHand;
use crate::expression::value_of;
use crate::seen::{Seen, lent, number_of, same_value};
use crate::{On, Place, Relation, Rule, Signal, Table, Test, Value};
use st_events::{Kind, Tag, Timer};

/// The tag of an event that is a call.
fn tag_of(kind: Kind) -> Option<Tag>
    ensures { result ≡ tag_of kind }
{
    match kind {
        Kind::Call(tag) => Some(tag),
        _ => None,
    }
}

/// What is at hand while an event is handled.
pub(crate) fn heard_of(kind: Kind, signal: &Signal) -> AtHand<'_>
    ensures { hears result ≡ heard_of kind signal.now }
{
    AtHand {
        tag: tag_of(kind),
        argument: lent(&signal.argument),
    }
}

/// Whether an event's kind is the one that is wanted.
fn is_kind(on: On, kind: Kind) -> bool
    ensures { result ≡ is_kind on kind }
{
    match (on, kind) {
        (On::Any, _) => true,
        (On::Call, Kind::Call(_)) => true,
        (On::Cast, Kind::Cast) => true,
        (On::Info, Kind::Info) => true,
        (On::Internal, Kind::Internal) => true,
        (On::AnyTimeout, Kind::Timeout(_)) => true,
        (On::EventTimeout, Kind::Timeout(Timer::Event)) => true,
        (On::StateTimeout, Kind::Timeout(Timer::State)) => true,
        (On::NamedTimeout(wanted), Kind::Timeout(Timer::Named(name))) => wanted == name,
        _ => false,
    }
}

/// Whether a symbol is the one that is wanted.
fn is_symbol(wanted: Option<u32>, symbol: u32) -> bool
    ensures { result ≡ is_symbol wanted symbol }
{
    match wanted {
        None => true,
        Some(wanted) => wanted == symbol,
    }
}

/// Whether two values compare so.
fn compares(relation: Relation, left: Seen<'_>, right: Seen<'_>) -> bool
    ensures { result ≡ compares relation (shown left.entry) (shown right.entry) }
{
    match relation {
        Relation::Equal => same_value(left, right),
        Relation::Different => !same_value(left, right),
        Relation::Less => number_of(left) < number_of(right),
        Relation::AtMost => number_of(left) <= number_of(right),
    }
}

/// Whether a test holds.
fn holds(at: AtHand<'_>, before: &[Value], registers: &[Value], test: &Test) -> bool
    ensures { result ≡ holds (hears at.entry) before.now registers.now test.now }
{
    let left = value_of(&test.left, at, before, registers);
    let right = value_of(&test.right, at, before, registers);
    compares(test.relation, left, right)
}

/// Whether all tests hold.
fn all_hold(at: AtHand<'_>, before: &[Value], registers: &[Value], tests: &[Test]) -> bool
    ensures { result ≡ list_all (holds (hears at.entry) before.now registers.now) tests.now }
{
    for test in tests {
        if !holds(at, before, registers, test) {
            return false;
        }
    }
    true
}

/// Whether a rule fits an event.
fn fits(kind: Kind, signal: &Signal, registers: &[Value], rule: &Rule) -> bool
    ensures { result ≡ fits kind signal.now registers.now rule.now }
{
    is_kind(rule.on, kind)
        && is_symbol(rule.symbol, signal.symbol)
        && all_hold(
            heard_of(kind, signal),
            registers,
            registers,
            rule.guard.as_slice(),
        )
}

/// The first rule that fits an event.
fn first_fit<'a>(
    kind: Kind,
    signal: &Signal,
    registers: &[Value],
    rules: &'a [Rule],
) -> Option<&'a Rule>
    ensures { option_copied result ≡ find (fits kind signal.now registers.now) rules.now }
{
    for rule in rules {
        if fits(kind, signal, registers, rule) {
            return Some(rule);
        }
    }
    None
}

/// The first rule whose guard holds.
pub(crate) fn first_guarded<'a>(
    at: AtHand<'_>,
    before: &[Value],
    registers: &[Value],
    rules: &'a [Rule],
) -> Option<&'a Rule>
    ensures { option_copied result ≡ find (is_guarded (hears at.entry) before.now registers.now) rules.now }
{
    for rule in rules {
        if all_hold(at, before, registers, rule.guard.as_slice()) {
            return Some(rule);
        }
    }
    None
}

/// The rules of a state, and none of one that is not there.
fn rules_in(table: &Table, state: Place) -> &[Rule]
    ensures { result.now ≡ rules_in (slice_get table.now.states state.number) }
{
    match table.states.get(state.number as usize) {
        Some(row) => row.rules.as_slice(),
        None => &[],
    }
}

/// The entries of a state, and none of one that is not there.
pub(crate) fn entries_in(table: &Table, state: Place) -> &[Rule]
    ensures { result.now ≡ entries_in (slice_get table.now.states state.number) }
{
    match table.states.get(state.number as usize) {
        Some(row) => row.entries.as_slice(),
        None => &[],
    }
}

/// The rule that an event takes.
pub(crate) fn rule_of<'a>(
    table: &'a Table,
    kind: Kind,
    signal: &Signal,
    state: Place,
    registers: &[Value],
) -> Option<&'a Rule>
    ensures { option_copied result ≡ rule_of table.now kind signal.now state registers.now }
{
    match first_fit(kind, signal, registers, rules_in(table, state)) {
        Some(rule) => Some(rule),
        None => first_fit(kind, signal, registers, table.any.as_slice()),
    }
}
