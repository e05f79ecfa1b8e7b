//! A description as JSON.

use crate::on_json::{push_on, push_rules};
use crate::page::{push_end, push_member, push_next, push_text};
use crate::rule_json::push_computed;
use crate::scope::Scope;
use crate::words::Words;
use st_chart::Chart;
use st_table::{StateRow, Value};
use std::alloc::{AllocError, Global};

/// Adds the first value of a register.
fn push_first(text: &mut String, value: &Value) -> Result<(), AllocError> {
    match value {
        Value::Number(number) => write!(text, "{number}"),
        Value::Text(held) => push_text(text, held.as_str()),
        _ => text.push_str("null"),
    }
}

/// Adds the registers and the arguments of a start, if there are any.
fn push_names(text: &mut String, chart: &Chart) -> Result<(), AllocError> {
    if !chart.names.registers.is_empty() {
        push_member(text, 1, "context")?;
        text.push('{')?;
        let mut number = 0u32;
        for value in chart.table.registers.as_slice() {
            push_member(text, 0, chart.names.registers.name(number))?;
            push_first(text, value)?;
            number = number.saturating_add(1);
        }
        push_end(text, 0, '}')?;
    }
    if !chart.names.arguments.is_empty() {
        push_member(text, 1, "args")?;
        text.push('[')?;
        let mut number = 0u32;
        for _ in 0..chart.names.arguments.len() {
            push_next(text, 0, false)?;
            push_text(text, chart.names.arguments.name(number))?;
            number = number.saturating_add(1);
        }
        push_end(text, 0, ']')?;
    }
    Ok(())
}

/// Adds the states.
fn push_states(text: &mut String, words: Words<'_>, rows: &[StateRow]) -> Result<(), AllocError> {
    let entry = Words {
        scope: Scope::Entry,
        ..words
    };
    push_member(text, 1, "states")?;
    text.push('{')?;
    let mut number = 0u32;
    for row in rows {
        push_member(text, 2, words.names.states.name(number))?;
        text.push('{')?;
        if row.entries.len() > 0 {
            push_rules(text, entry, 3, "entry", row.entries.as_slice())?;
        }
        push_on(text, words, 3, row.rules.as_slice())?;
        push_end(text, 2, '}')?;
        number = number.saturating_add(1);
    }
    push_end(text, 1, '}')
}

/// Adds the members of the machine.
fn push_machine(text: &mut String, words: Words<'_>, chart: &Chart) -> Result<(), AllocError> {
    if let Some(id) = &chart.id {
        push_member(text, 1, "id")?;
        push_text(text, id.as_str())?;
    }
    push_names(text, chart)?;
    let start = Words {
        scope: Scope::Start,
        ..words
    };
    push_rules(text, start, 1, "start", chart.table.start.as_slice())?;
    push_states(text, words, chart.table.states.as_slice())?;
    push_on(text, words, 1, chart.table.any.as_slice())?;
    let last = Words {
        scope: Scope::Last,
        ..words
    };
    push_computed(text, last, 1, "last", &chart.table.last)
}

/// Writes a description back as JSON, which reads to the same table with the same names: two blanks before each level, and
/// a line for each rule. It may find no memory.
///
/// What is short for something else is written out: `initial` as `start`, `after` as an entry that sets the time-out and a
/// rule of it, and a state's name as a rule that leads there. So a description near the reader's limits may be written
/// past them. Members `description` were not kept.
pub fn to_json(alloc: Global, chart: &Chart) -> Result<Vec<u8>, AllocError> {
    let words = Words {
        alloc,
        names: &chart.names,
        scope: Scope::Event,
    };
    let mut text = String::from_str(alloc, "{")?;
    push_machine(&mut text, words, chart)?;
    text.push_str("\n}\n")?;
    Ok(text.into_bytes())
}
