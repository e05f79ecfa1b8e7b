//! States that are never entered, or never left.

use crate::flags::set;
use crate::found::Found;
use crate::part::{Part, Subject};
use st_chart::Chart;
use st_table::{Ask, Rule, Table, Target};
use std::alloc::{AllocError, Global};

/// Notes the states to which rules lead, and those among them that are new.
fn reach(reached: &mut [bool], new: &mut Vec<u32>, rules: &[Rule]) -> Result<(), AllocError> {
    for rule in rules {
        if let Target::Next(place) = &rule.target {
            if set(reached, place.number) {
                new.push(place.number)?;
            }
        }
    }
    Ok(())
}

/// Of which states it is true that they are entered, if each rule can be taken.
fn entered(alloc: Global, table: &Table) -> Result<Vec<bool>, AllocError> {
    let mut reached = vec![in alloc; false; table.states.len()]?;
    let mut new = Vec::new(alloc);
    reach(&mut reached, &mut new, table.start.as_slice())?;
    if !new.is_empty() {
        reach(&mut reached, &mut new, table.any.as_slice())?;
    }
    for _ in 0..table.states.len() {
        let number = new.pop().unwrap_or(u32::MAX);
        if let Some(row) = table.states.get(number as usize) {
            reach(&mut reached, &mut new, row.rules.as_slice())?;
        }
    }
    Ok(reached)
}

/// Whether a rule of these leads out of a state.
fn leads_out(rules: &[Rule], state: u32) -> bool {
    for rule in rules {
        match &rule.target {
            Target::Next(place) if place.number != state => return true,
            Target::Stop(_) => return true,
            _ => {}
        }
    }
    false
}

/// Of which states it is true that they are never left.
pub(crate) fn closed(alloc: Global, table: &Table) -> Result<Vec<bool>, AllocError> {
    let mut closed = Vec::new(alloc);
    let mut state = 0u32;
    for row in table.states.as_slice() {
        let is_open = leads_out(row.rules.as_slice(), state)
            || leads_out(table.any.as_slice(), state)
            || leads_out(row.entries.as_slice(), state);
        closed.push(!is_open)?;
        state = state.saturating_add(1);
    }
    Ok(closed)
}

/// Warns of the states that are never entered, and of those that are never left.
pub(crate) fn warn_states(
    found: &mut Found<'_>,
    chart: &Chart,
    closed: &[bool],
) -> Result<(), AllocError> {
    let entered = entered(found.alloc, &chart.table)?;
    let mut state = 0u32;
    for (place, marks) in chart.marks.states.as_slice().iter().enumerate() {
        let subject = Subject::State(state);
        if let Some(false) = entered.get(place) {
            found.warn(subject, Some(&marks.name), " is never entered")?;
        }
        if let Some(true) = closed.get(place) {
            found.warn(subject, Some(&marks.name), " has no way out")?;
        }
        state = state.saturating_add(1);
    }
    Ok(())
}

/// The first state that is never left in which a rule may be taken, if there is one.
fn closed_state(subject: Subject, closed: &[bool]) -> Option<u32> {
    for (place, is_closed) in closed.iter().enumerate() {
        let is_there = match subject {
            Subject::Rule(state) => state as usize == place,
            Subject::AnyRule => true,
            _ => false,
        };
        if is_there && *is_closed {
            return u32::try_from(place).ok();
        }
    }
    None
}

/// Warns of a rule that postpones in a state that is never left.
pub(crate) fn warn_postponed(
    found: &mut Found<'_>,
    closed: &[bool],
    part: Part<'_>,
    place: usize,
    rule: &Rule,
) -> Result<(), AllocError> {
    let Some(state) = closed_state(part.subject, closed) else {
        return Ok(());
    };
    for ask in rule.asks.as_slice() {
        if let Ask::Postpone = ask {
            let state = found.names.states.name(state);
            let said = format!(in found.alloc;
                " postpones events for ever: \"{state}\" has no way out"
            )?;
            return found.warn(part.subject, part.marks.get(place), said.as_str());
        }
    }
    Ok(())
}
