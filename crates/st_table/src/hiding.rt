//! Whether a rule hides another.
ghost use Rattle.std.specs.Prelude.{◌≡◌, List, true, OnSome, position};
ghost use Rattle.st_events.specs.declared.kind.Kind.{Kind};
ghost use Rattle.st_table.specs.Values.{Heard};
ghost use Rattle.st_table.specs.declared.signal.Signal.{Signal};
ghost use Rattle.st_table.specs.declared.value.Value.{Value};
ghost use Rattle.st_table.specs.Matching.{fits, is_guarded};
ghost use Rattle.st_table.specs.Covers.{covers_kind, covers_symbol, covers, IsNeverTaken, hider, IsIdle};

use crate::{On, Rule};

/// Whether each event of the later kind is of the earlier.
fn covers_kind(earlier: On, later: On) -> bool
    ensures { result ≡ covers_kind earlier later }
{
    match (earlier, later) {
        (On::Any, _) => true,
        (On::Call, On::Call) => true,
        (On::Cast, On::Cast) => true,
        (On::Info, On::Info) => true,
        (On::Internal, On::Internal) => true,
        (On::AnyTimeout, On::AnyTimeout) => true,
        (On::AnyTimeout, On::EventTimeout) => true,
        (On::AnyTimeout, On::StateTimeout) => true,
        (On::AnyTimeout, On::NamedTimeout(_)) => true,
        (On::EventTimeout, On::EventTimeout) => true,
        (On::StateTimeout, On::StateTimeout) => true,
        (On::NamedTimeout(earlier), On::NamedTimeout(later)) => earlier == later,
        _ => false,
    }
}

/// Whether each symbol that the later rule wants is one that the earlier wants.
fn covers_symbol(earlier: Option<u32>, later: Option<u32>) -> bool
    ensures { result ≡ covers_symbol earlier later }
{
    match (earlier, later) {
        (None, _) => true,
        (Some(earlier), Some(later)) => earlier == later,
        _ => false,
    }
}

/// Whether each event that the later rule wants is one that the earlier takes.
fn covers_events(earlier: &Rule, later: &Rule) -> bool
    ensures { result ≡ covers earlier.now later.now }
{
    covers_kind(earlier.on, later.on)
        && covers_symbol(earlier.symbol, later.symbol)
        && earlier.guard.as_slice().is_empty()
}

/// Says whether a later rule is never taken where an earlier one stands before it: the earlier has no guard, and wants each
/// event that the later wants. It is for who checks tables.
///
/// A rule that is hidden in another way, as behind two guards of which one always holds, it does not find. What it says of
/// two rules holds of entries and of the rules of a start too, though nobody looks at their kinds and symbols.
///
/// Ours: the first rule that fits is taken.
pub fn covers(earlier: &Rule, later: &Rule) -> bool
    ensures covered { result ≡ covers earlier.now later.now }

    // The first rule that fits is the same with and without the later, wherever the earlier stands before it.
    ensures never_taken { result ≡ true → (kind : Kind) (signal : Signal) (registers : List Value) → IsNeverTaken (fits kind signal registers) earlier.now later.now }
    ensures never_entered { result ≡ true → (heard : Heard) (before registers : List Value) → IsNeverTaken (is_guarded heard before registers) earlier.now later.now }
{
    covers_events(earlier, later)
}

/// The place of the first rule that covers a later one.
fn first_cover(earlier: &[Rule], later: &Rule) -> Option<usize>
    ensures { result ≡ position (λ rule. covers rule later.now) earlier.now }
{
    earlier.iter().position(|rule| covers(rule, later))
}

/// The place of the first rule that stands before the one at a place and covers it, or `None` where no rule before it
/// does, or the place is none of the list. It is for who checks tables.
///
/// Ours: the first rule that fits is taken.
pub fn hider(rules: &[Rule], place: usize) -> Option<usize>
    ensures hidden { result ≡ hider rules.now place }

    // The first rule that fits is the same without the one at the place, for each event and all registers.
    ensures never_taken { OnSome result ((kind : Kind) (signal : Signal) (registers : List Value) → IsIdle (fits kind signal registers) rules.now place) }
    ensures never_entered { OnSome result ((heard : Heard) (before registers : List Value) → IsIdle (is_guarded heard before registers) rules.now place) }
{
    match rules.get(place) {
        None => None,
        Some(later) => first_cover(&rules[..place], later),
    }
}
