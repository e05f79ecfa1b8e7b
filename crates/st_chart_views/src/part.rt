//! The lists of rules of a description.

use st_chart::{Chart, Mark};
use st_table::Rule;
use std::alloc::{AllocError, Global};

/// Of what something is said.
#[derive(Clone, Copy)]
pub(crate) enum Subject {
    /// Of a rule of a start.
    Start,
    /// Of an entry of a state.
    Entry(u32),
    /// Of a rule of events in a state.
    Rule(u32),
    /// Of a rule of events in any state.
    AnyRule,
    /// Of a state.
    State(u32),
}

/// A list of rules, of which the first that fits is taken.
#[derive(Clone, Copy)]
pub(crate) struct Part<'a> {
    /// What they are.
    pub(crate) subject: Subject,
    /// The rules.
    pub(crate) rules: &'a [Rule],
    /// Where they stand.
    pub(crate) marks: &'a [Mark],
}

/// Adds the lists of the states.
fn push_states<'a>(parts: &mut Vec<Part<'a>>, chart: &'a Chart) -> Result<(), AllocError> {
    let mut number = 0u32;
    for (place, row) in chart.table.states.as_slice().iter().enumerate() {
        let Some(marks) = chart.marks.states.get(place) else {
            return Ok(());
        };
        parts.push(Part {
            subject: Subject::Entry(number),
            rules: row.entries.as_slice(),
            marks: marks.entries.as_slice(),
        })?;
        parts.push(Part {
            subject: Subject::Rule(number),
            rules: row.rules.as_slice(),
            marks: marks.rules.as_slice(),
        })?;
        number = number.saturating_add(1);
    }
    Ok(())
}

/// All lists of rules.
pub(crate) fn parts(alloc: Global, chart: &Chart) -> Result<Vec<Part<'_>>, AllocError> {
    let mut parts = Vec::new(alloc);
    parts.push(Part {
        subject: Subject::Start,
        rules: chart.table.start.as_slice(),
        marks: chart.marks.start.as_slice(),
    })?;
    push_states(&mut parts, chart)?;
    parts.push(Part {
        subject: Subject::AnyRule,
        rules: chart.table.any.as_slice(),
        marks: chart.marks.any.as_slice(),
    })?;
    Ok(parts)
}
