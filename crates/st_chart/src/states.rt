//! States.

use crate::draft::Draft;
use crate::events::events;
use crate::lists::add_to;
use crate::members::{description, is_double, is_object_of};
use crate::naming::{MOST_NAMES, named};
use crate::reading::Reading;
use crate::rules::{Heading, add_after, add_mark, blank_rule, mark, rules_in};
use crate::scope::Part;
use crate::tree::{Node, Shape};
use crate::{On, PlainList, RowMarks, StateRow};
use std::alloc::{AllocError, Global};

/// A state without rules.
fn blank_row(alloc: Global) -> StateRow {
    StateRow {
        entries: PlainList::new(alloc),
        rules: PlainList::new(alloc),
    }
}

/// Where a state stands.
fn row_marks(reading: &Reading<'_>, part: &Node<'_>) -> Result<RowMarks, AllocError> {
    Ok(RowMarks {
        name: mark(reading, part.key_at, part.key)?,
        entries: PlainList::new(reading.alloc),
        rules: PlainList::new(reading.alloc),
    })
}

/// The member that says how long a state's time-out lasts and what its rules are, if it has one.
fn after_in<'n, 'a>(
    reading: &mut Reading<'_>,
    part: &'n Node<'a>,
) -> Result<Option<&'n Node<'a>>, AllocError> {
    let Some(after) = part.member("after") else {
        return Ok(None);
    };
    match (after.shape, after.parts.as_slice()) {
        (Shape::Object, [member]) => Ok(Some(member)),
        _ => {
            let text = "an object with one member is wanted here: milliseconds, and a rule";
            reading.wanted(after, text)?;
            Ok(None)
        }
    }
}

/// Reads the entries of a state that are written down.
fn written_entries(
    reading: &mut Reading<'_>,
    entry: &Node<'_>,
    after: Option<&Node<'_>>,
    row: &mut StateRow,
    marks: &mut RowMarks,
) -> Result<(), AllocError> {
    let heading = Heading {
        part: Part::Entry,
        on: On::Any,
        symbol: None,
        key: "entry",
    };
    rules_in(
        reading,
        heading,
        after,
        entry,
        &mut row.entries,
        &mut marks.entries,
    )
}

/// Whether no entry may be taken, since there is none or the last has a guard.
fn lacks_entry(row: &StateRow) -> bool {
    match row.entries.as_slice().last() {
        Some(entry) => entry.guard.len() > 0,
        None => true,
    }
}

/// Adds the entry that sets a state's time-out, where it would not be set else.
fn after_entry(
    reading: &mut Reading<'_>,
    member: &Node<'_>,
    row: &mut StateRow,
    marks: &mut RowMarks,
) -> Result<(), AllocError> {
    if !lacks_entry(row) {
        return Ok(());
    }
    add_mark(reading, member.key_at, "after", &mut marks.entries)?;
    let mut entry = blank_rule(reading.alloc, On::Any, None);
    match add_after(reading, member, &mut entry.asks) {
        Ok(()) => add_to(&mut row.entries, entry),
        Err(error) => Err(error),
    }
}

/// Reads the entries of a state.
fn entries(
    reading: &mut Reading<'_>,
    part: &Node<'_>,
    after: Option<&Node<'_>>,
    row: &mut StateRow,
    marks: &mut RowMarks,
) -> Result<(), AllocError> {
    if let Some(entry) = part.member("entry") {
        written_entries(reading, entry, after, row, marks)?;
    }
    match after {
        Some(member) => after_entry(reading, member, row, marks),
        None => Ok(()),
    }
}

/// Reads what a state is made of.
fn row_parts(
    reading: &mut Reading<'_>,
    part: &Node<'_>,
    row: &mut StateRow,
    marks: &mut RowMarks,
) -> Result<(), AllocError> {
    if let Shape::Null = part.shape {
        return Ok(());
    }
    let words = "entry on after description";
    if !is_object_of(reading, part, "a state has no ", words)? {
        return Ok(());
    }
    description(reading, part)?;
    let after = after_in(reading, part)?;
    entries(reading, part, after, row, marks)?;
    let on = part.member("on");
    events(reading, on, after, &mut row.rules, &mut marks.rules)
}

/// Adds a state to the end of others.
fn keep_state(row: StateRow, marks: RowMarks, draft: &mut Draft) -> Result<(), AllocError> {
    draft.table.enters = draft.table.enters || row.entries.len() > 0;
    add_to(&mut draft.table.states, row)?;
    add_to(&mut draft.marks.states, marks)
}

/// Reads a state to the end of others.
fn add_state(
    reading: &mut Reading<'_>,
    part: &Node<'_>,
    draft: &mut Draft,
) -> Result<(), AllocError> {
    let mut marks = row_marks(reading, part)?;
    let mut row = blank_row(reading.alloc);
    match row_parts(reading, part, &mut row, &mut marks) {
        Ok(()) => keep_state(row, marks, draft),
        Err(error) => Err(error),
    }
}

/// Numbers the states.
pub(crate) fn name_states(reading: &mut Reading<'_>, states: &Node<'_>) -> Result<(), AllocError> {
    let (Shape::Object) = states.shape else {
        return reading.wanted(states, "an object is wanted here: states and what they do");
    };
    if states.parts.is_empty() {
        return reading.wanted(states, "a state is wanted here");
    }
    for (place, part) in states.parts.iter().enumerate() {
        if place == MOST_NAMES {
            return reading.wrong(part.key_at, "more than 1,000 states");
        }
        is_double(reading, states, part)?;
        named(reading, part.key_at, part.key)?;
        reading.names.states.number(reading.alloc, part.key)?;
    }
    Ok(())
}

/// Reads the states.
pub(crate) fn add_states(
    reading: &mut Reading<'_>,
    states: &Node<'_>,
    draft: &mut Draft,
) -> Result<(), AllocError> {
    for part in &states.parts {
        if reading.faults.is_full() {
            break;
        }
        add_state(reading, part, draft)?;
    }
    Ok(())
}
