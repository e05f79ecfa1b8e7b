//! The whole of a description.

use crate::draft::Draft;
use crate::events::events;
use crate::expressions::{alone, expression_in};
use crate::lists::add_to;
use crate::members::{description, is_double, is_object_of};
use crate::naming::{MOST_NAMES, named, state_in, text_in};
use crate::operand::number;
use crate::reading::Reading;
use crate::rules::{Heading, add_mark, blank_rule, rules_in, set_target};
use crate::scope::{Part, Scope};
use crate::states::{add_states, name_states};
use crate::tree::{Node, Shape};
use crate::{On, Operand, PlainList, PlainText, Target, Update, Value};
use std::alloc::AllocError;

/// How many registers there are at most.
const MOST_REGISTERS: usize = 64;

/// The first value of a register.
fn first_value(reading: &mut Reading<'_>, part: &Node<'_>) -> Result<Value, AllocError> {
    match part.shape {
        Shape::Null => Ok(Value::Nothing),
        Shape::Number => Ok(Value::Number(number(reading, part.at, part.text)?)),
        Shape::Text => Ok(Value::Text(PlainText::copied(reading.alloc, part.text)?)),
        _ => {
            reading.wanted(part, "a number, a text or null is wanted here")?;
            Ok(Value::Nothing)
        }
    }
}

/// Reads the registers.
fn context(
    reading: &mut Reading<'_>,
    object: &Node<'_>,
    registers: &mut PlainList<Value>,
) -> Result<(), AllocError> {
    let (Shape::Object) = object.shape else {
        return reading.wanted(
            object,
            "an object is wanted here: registers and their first values",
        );
    };
    for (place, part) in object.parts.iter().enumerate() {
        if place == MOST_REGISTERS {
            return reading.wrong(part.key_at, "more than 64 registers");
        }
        is_double(reading, object, part)?;
        named(reading, part.key_at, part.key)?;
        reading.names.registers.number(reading.alloc, part.key)?;
        let value = first_value(reading, part)?;
        add_to(registers, value)?;
    }
    Ok(())
}

/// Where an argument of this name stands first.
fn first_argument(list: &Node<'_>, name: &str) -> usize {
    for part in &list.parts {
        if part.text == name {
            return part.at;
        }
    }
    list.at
}

/// Reads an argument of a start.
fn argument(reading: &mut Reading<'_>, list: &Node<'_>, part: &Node<'_>) -> Result<(), AllocError> {
    let name = text_in(reading, part)?;
    if !named(reading, part.at, name)? {
        return Ok(());
    }
    if reading.names.arguments.find(name).is_some() {
        return reading.double(part.at, name, first_argument(list, name));
    }
    reading.names.arguments.number(reading.alloc, name)?;
    Ok(())
}

/// Reads the arguments of a start.
fn arguments(reading: &mut Reading<'_>, list: &Node<'_>) -> Result<(), AllocError> {
    let (Shape::List) = list.shape else {
        return reading.wanted(list, "a list of names is wanted here");
    };
    for (place, part) in list.parts.iter().enumerate() {
        if place.saturating_add(reading.names.registers.len()) == MOST_NAMES {
            return reading.wrong(part.at, "more than 1,000 registers and arguments");
        }
        argument(reading, list, part)?;
    }
    Ok(())
}

/// Reads which names there are.
fn names(
    reading: &mut Reading<'_>,
    machine: &Node<'_>,
    draft: &mut Draft,
) -> Result<(), AllocError> {
    if let Some(object) = machine.member("context") {
        context(reading, object, &mut draft.table.registers)?;
    }
    if let Some(list) = machine.member("args") {
        arguments(reading, list)?;
    }
    match machine.member("states") {
        Some(states) => name_states(reading, states),
        None => reading.wrong(machine.at, "a machine wants a member \"states\""),
    }
}

/// Gives registers the arguments of their names.
fn given_registers(
    reading: &Reading<'_>,
    updates: &mut PlainList<Update>,
) -> Result<(), AllocError> {
    for register in 0..MOST_REGISTERS as u32 {
        if register as usize >= reading.names.registers.len() {
            break;
        }
        let name = reading.names.registers.name(register);
        if let Some(number) = reading.names.arguments.find(name) {
            let value = alone(reading.alloc, Operand::Before(number));
            add_to(updates, Update { register, value })?;
        }
    }
    Ok(())
}

/// Reads the first state.
fn initial(
    reading: &mut Reading<'_>,
    place: &Node<'_>,
    draft: &mut Draft,
) -> Result<(), AllocError> {
    add_mark(reading, place.at, "initial", &mut draft.marks.start)?;
    let first = state_in(reading, place)?;
    let mut rule = blank_rule(reading.alloc, On::Any, None);
    set_target(&mut rule, Target::Next(first));
    match given_registers(reading, &mut rule.updates) {
        Ok(()) => add_to(&mut draft.table.start, rule),
        Err(error) => Err(error),
    }
}

/// Reads the rules of a start.
fn start(reading: &mut Reading<'_>, node: &Node<'_>, draft: &mut Draft) -> Result<(), AllocError> {
    let heading = Heading {
        part: Part::Start,
        on: On::Any,
        symbol: None,
        key: "start",
    };
    rules_in(
        reading,
        heading,
        None,
        node,
        &mut draft.table.start,
        &mut draft.marks.start,
    )
}

/// Reads how the machine begins.
fn beginning(
    reading: &mut Reading<'_>,
    machine: &Node<'_>,
    draft: &mut Draft,
) -> Result<(), AllocError> {
    match (machine.member("initial"), machine.member("start")) {
        (Some(place), None) => initial(reading, place, draft),
        (None, Some(rules)) => start(reading, rules, draft),
        (None, None) => {
            let text = "a machine wants a member \"initial\" or \"start\"";
            reading.wrong(machine.at, text)
        }
        (Some(_), Some(rules)) => {
            reading.wrong(rules.key_at, "\"start\" cannot stand beside \"initial\"")
        }
    }
}

/// Reads the name of the machine.
fn id(reading: &mut Reading<'_>, machine: &Node<'_>, draft: &mut Draft) -> Result<(), AllocError> {
    let Some(part) = machine.member("id") else {
        return Ok(());
    };
    let name = text_in(reading, part)?;
    named(reading, part.at, name)?;
    draft.id = Some(String::from_str(reading.alloc, name)?);
    Ok(())
}

/// Reads the rules of the states, of any state, and the last word.
fn rules(
    reading: &mut Reading<'_>,
    machine: &Node<'_>,
    draft: &mut Draft,
) -> Result<(), AllocError> {
    if let Some(states) = machine.member("states") {
        add_states(reading, states, draft)?;
    }
    let on = machine.member("on");
    events(
        reading,
        on,
        None,
        &mut draft.table.any,
        &mut draft.marks.any,
    )?;
    if let Some(last) = machine.member("last") {
        draft.table.last = expression_in(reading, Scope::now(Part::Last), last)?;
    }
    Ok(())
}

/// Reads a description.
pub(crate) fn machine(
    reading: &mut Reading<'_>,
    node: &Node<'_>,
    draft: &mut Draft,
) -> Result<(), AllocError> {
    let words = "id description context args initial start states on last $schema";
    if !is_object_of(reading, node, "a machine has no ", words)? {
        return Ok(());
    }
    id(reading, node, draft)?;
    description(reading, node)?;
    names(reading, node, draft)?;
    beginning(reading, node, draft)?;
    rules(reading, node, draft)
}
