//! Time-outs that nobody handles, or nobody sets.

use crate::expressions::is_nothing;
use crate::flags::set;
use crate::found::Found;
use crate::keys::{timer_name, waits_for};
use crate::part::{Part, Subject};
use st_events::Timer;
use st_table::{Ask, On, Rule, Table, Target};
use std::alloc::AllocError;

/// The place of a time-out in a list of all: those with a name by their numbers, behind the two without one.
fn place_of(timer: Timer) -> u32 {
    match timer {
        Timer::Event => 0,
        Timer::State => 1,
        Timer::Named(number) => number.saturating_add(2),
    }
}

/// Whether a rule of these takes a time-out.
fn is_taken(rules: &[Rule], timer: Timer) -> bool {
    for rule in rules {
        match (rule.on, waits_for(rule)) {
            (On::Any, _) => return true,
            (On::AnyTimeout, _) => return true,
            (_, Some(wanted)) if place_of(wanted) == place_of(timer) => return true,
            _ => {}
        }
    }
    false
}

/// Whether a time-out is handled: one without a name where the machine is then, if that is known, another in any state.
fn is_handled(table: &Table, timer: Timer, state: Option<u32>) -> bool {
    if is_taken(table.any.as_slice(), timer) {
        return true;
    }
    let mut number = 0u32;
    for row in table.states.as_slice() {
        let is_meant = match (timer, state) {
            (Timer::Named(_), _) => true,
            (_, Some(state)) => state == number,
            _ => true,
        };
        if is_meant && is_taken(row.rules.as_slice(), timer) {
            return true;
        }
        number = number.saturating_add(1);
    }
    false
}

/// The time-out that an action sets. An update starts one that does not run.
fn set_by(ask: &Ask) -> Option<Timer> {
    match ask {
        Ask::Set(timer, time, _) if !is_nothing(time) => Some(*timer),
        Ask::Update(timer, _) => Some(*timer),
        _ => None,
    }
}

/// Notes the time-outs that the rules of a list set, by their places.
pub(crate) fn note_begun(begun: &mut [bool], part: Part<'_>) {
    for rule in part.rules {
        for ask in rule.asks.as_slice() {
            if let Some(timer) = set_by(ask) {
                let _ = set(begun, place_of(timer));
            }
        }
    }
}

/// The state that a machine is in once it has taken a rule, if it is known.
fn state_then(subject: Subject, rule: &Rule) -> Option<u32> {
    if let Target::Next(place) = &rule.target {
        return Some(place.number);
    }
    match subject {
        Subject::Entry(state) => Some(state),
        Subject::Rule(state) => Some(state),
        _ => None,
    }
}

/// The first time-out that a rule sets and nobody handles, if there is one.
fn unhandled(table: &Table, rule: &Rule, state: Option<u32>) -> Option<Timer> {
    for ask in rule.asks.as_slice() {
        if let Some(timer) = set_by(ask) {
            if !is_handled(table, timer, state) {
                return Some(timer);
            }
        }
    }
    None
}

/// What is said of a time-out that nobody handles.
fn unhandled_text(
    found: &Found<'_>,
    timer: Timer,
    state: Option<u32>,
) -> Result<String, AllocError> {
    let name = timer_name(found.names, timer);
    let mut said = format!(in found.alloc; " sets the time-out \"{name}\", which nobody handles")?;
    if let Timer::Named(_) = timer {
        return Ok(said);
    }
    if let Some(state) = state {
        let state = found.names.states.name(state);
        write!(said, " in \"{state}\"")?;
    }
    Ok(said)
}

/// Warns of the first time-out that a rule sets and nobody handles. One that stops the machine is not looked at.
pub(crate) fn warn_unhandled(
    found: &mut Found<'_>,
    table: &Table,
    part: Part<'_>,
    place: usize,
    rule: &Rule,
) -> Result<(), AllocError> {
    if let Target::Stop(_) = &rule.target {
        return Ok(());
    }
    let state = state_then(part.subject, rule);
    let Some(timer) = unhandled(table, rule, state) else {
        return Ok(());
    };
    let said = unhandled_text(found, timer, state)?;
    found.warn(part.subject, part.marks.get(place), said.as_str())
}

/// Warns of a time-out for which a rule waits and that nobody sets, the first time.
pub(crate) fn warn_unset(
    found: &mut Found<'_>,
    begun: &mut [bool],
    part: Part<'_>,
    place: usize,
    rule: &Rule,
) -> Result<(), AllocError> {
    let Some(timer) = waits_for(rule) else {
        return Ok(());
    };
    if !set(begun, place_of(timer)) {
        return Ok(());
    }
    let name = timer_name(found.names, timer);
    let said = format!(in found.alloc; " waits for the time-out \"{name}\", which nobody sets")?;
    found.warn(part.subject, part.marks.get(place), said.as_str())
}
