//! What is odd in a description.

use crate::found::Found;
use crate::hidden::warn_hidden;
use crate::idle::warn_idle;
use crate::part::{Part, parts};
use crate::time_outs::{note_begun, warn_unhandled, warn_unset};
use crate::ways::{closed, warn_postponed, warn_states};
use st_chart::{Chart, Fault, PlainList};
use st_table::Table;
use std::alloc::{AllocError, Global};

/// Warns of the rules of a list. Of some states it is known that they are never left, and of some time-outs that they are
/// set.
fn warn_part(
    found: &mut Found<'_>,
    table: &Table,
    closed: &[bool],
    begun: &mut [bool],
    part: Part<'_>,
) -> Result<(), AllocError> {
    for (place, rule) in part.rules.iter().enumerate() {
        warn_hidden(found, table.states.as_slice(), part, place, rule)?;
        warn_postponed(found, closed, part, place, rule)?;
        warn_idle(found, part, place, rule)?;
        warn_unhandled(found, table, part, place, rule)?;
        warn_unset(found, begun, part, place, rule)?;
    }
    Ok(())
}

/// Warns of all that is odd.
fn warn_all(found: &mut Found<'_>, chart: &Chart) -> Result<(), AllocError> {
    let table = &chart.table;
    let closed = closed(found.alloc, table)?;
    warn_states(found, chart, closed.as_slice())?;
    let parts = parts(found.alloc, chart)?;
    let timers = chart.names.timers.len().saturating_add(2);
    let mut begun = vec![in found.alloc; false; timers]?;
    for part in &parts {
        note_begun(&mut begun, *part);
    }
    for part in &parts {
        warn_part(found, table, closed.as_slice(), &mut begun, *part)?;
    }
    Ok(())
}

/// What is odd in a description, though it may be meant so, in the order of the places:
///
/// - rules that are never taken, since one before them takes all their events (`st_table::hider`), or each state has one
///   that does (`st_table::covers`);
/// - states that are never entered, and states that have no way out, with what is postponed there;
/// - time-outs that are set and nobody handles, and those for which a rule waits and nobody sets;
/// - replies to the caller where there is none, and actions that ask for nothing, since the rule ends the machine or
///   begins none.
///
/// It may find no memory.
pub fn warnings(alloc: Global, chart: &Chart) -> Result<PlainList<Fault>, AllocError> {
    let mut found = Found {
        alloc,
        names: &chart.names,
        faults: Vec::new(alloc),
    };
    warn_all(&mut found, chart)?;
    found.sorted()
}
