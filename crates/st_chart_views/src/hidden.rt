//! Rules that are never taken.

use crate::found::Found;
use crate::part::{Part, Subject};
use st_table::{Rule, StateRow, covers, hider};
use std::alloc::AllocError;

/// Whether each state has a rule that covers this one of any state.
fn is_behind_each(rows: &[StateRow], later: &Rule) -> bool {
    'rows: for row in rows {
        for earlier in row.rules.as_slice() {
            if covers(earlier, later) {
                continue 'rows;
            }
        }
        return false;
    }
    true
}

/// Warns of a rule that is never taken.
pub(crate) fn warn_hidden(
    found: &mut Found<'_>,
    rows: &[StateRow],
    part: Part<'_>,
    place: usize,
    rule: &Rule,
) -> Result<(), AllocError> {
    let mark = part.marks.get(place);
    if let Some(first) = hider(part.rules, place) {
        let Some(first) = part.marks.get(first) else {
            return Ok(());
        };
        let line = first.line;
        let said = format!(in found.alloc;
            " is never taken: the one in line {line} comes before it"
        )?;
        return found.warn(part.subject, mark, said.as_str());
    }
    match part.subject {
        Subject::AnyRule if is_behind_each(rows, rule) => {
            let said = " is never taken: each state has one that comes before it";
            found.warn(part.subject, mark, said)
        }
        _ => Ok(()),
    }
}
