//! Names in a description, and their numbers.

use crate::reading::Reading;
use crate::tree::{Node, Shape};
use crate::wording::listed_names;
use crate::{Names, Place, Timer};
use std::alloc::{AllocError, Global};

/// How many bytes a name has at most.
const LONGEST_NAME: usize = 64;

/// How many names of a kind there are at most.
pub(crate) const MOST_NAMES: usize = 1000;

/// Whether a name has a meaning of its own.
fn is_reserved(name: &str) -> bool {
    "event caller from reason none min max and was arg"
        .split(' ')
        .any(|word| word == name)
}

/// Whether a text is made as names are.
fn is_name(text: &str) -> bool {
    let Some((first, rest)) = text.as_bytes().split_first() else {
        return false;
    };
    text.len() <= LONGEST_NAME
        && first.is_ascii_alphabetic()
        && rest
            .iter()
            .all(|byte| byte.is_ascii_alphanumeric() || *byte == b'_')
}

/// Whether a text may be a name. If not, a fault is noted.
pub(crate) fn named(reading: &mut Reading<'_>, at: usize, text: &str) -> Result<bool, AllocError> {
    if !is_name(text) {
        let after = " is no name; a name is a letter, and letters, digits and \"_\", 64 at most";
        reading.wrong_name(at, "", text, after)?;
        return Ok(false);
    }
    if is_reserved(text) {
        reading.wrong_name(at, "", text, " has a meaning of its own, and is no name")?;
        return Ok(false);
    }
    Ok(true)
}

/// The text of a value that is to be one. Of another value a fault is noted, and the text is empty.
pub(crate) fn text_in<'n>(
    reading: &mut Reading<'_>,
    node: &'n Node<'_>,
) -> Result<&'n str, AllocError> {
    match node.shape {
        Shape::Text => Ok(node.text),
        _ => {
            reading.wanted(node, "a text is wanted here")?;
            Ok("")
        }
    }
}

/// The number of a name, which comes in where it is not there yet, and whether it is the first too many. None comes in
/// after that.
fn counted(alloc: Global, names: &mut Names, name: &str) -> Result<(u32, bool), AllocError> {
    if let Some(number) = names.find(name) {
        return Ok((number, false));
    }
    if names.len() > MOST_NAMES {
        return Ok((0, false));
    }
    let number = names.number(alloc, name)?;
    Ok((number, names.len() > MOST_NAMES))
}

/// The number of a symbol, which comes in where it is not there yet.
pub(crate) fn symbol(reading: &mut Reading<'_>, at: usize, name: &str) -> Result<u32, AllocError> {
    if !named(reading, at, name)? {
        return Ok(0);
    }
    let (number, is_too_many) = counted(reading.alloc, &mut reading.names.symbols, name)?;
    if is_too_many {
        reading.wrong(at, "more than 1,000 symbols")?;
    }
    Ok(number)
}

/// The number of a named timer, which comes in where it is not there yet.
fn timer_number(reading: &mut Reading<'_>, at: usize, name: &str) -> Result<u32, AllocError> {
    if !named(reading, at, name)? {
        return Ok(0);
    }
    let (number, is_too_many) = counted(reading.alloc, &mut reading.names.timers, name)?;
    if is_too_many {
        reading.wrong(at, "more than 1,000 named timers")?;
    }
    Ok(number)
}

/// The timer of a name.
pub(crate) fn timer(reading: &mut Reading<'_>, at: usize, name: &str) -> Result<Timer, AllocError> {
    match name {
        "event" => Ok(Timer::Event),
        "state" => Ok(Timer::State),
        _ => Ok(Timer::Named(timer_number(reading, at, name)?)),
    }
}

/// Notes that there is no such name.
fn lacks(
    reading: &mut Reading<'_>,
    at: usize,
    kind: &str,
    name: &str,
    listed: Result<String, AllocError>,
) -> Result<u32, AllocError> {
    reading.unknown(at, kind, name, listed?)?;
    Ok(0)
}

/// The number of a state.
pub(crate) fn state(reading: &mut Reading<'_>, at: usize, name: &str) -> Result<u32, AllocError> {
    match reading.names.states.find(name) {
        Some(number) => Ok(number),
        None => {
            let listed = listed_names(reading.alloc, &reading.names.states);
            lacks(reading, at, "state", name, listed)
        }
    }
}

/// The number of a register.
pub(crate) fn register(
    reading: &mut Reading<'_>,
    at: usize,
    name: &str,
) -> Result<u32, AllocError> {
    match reading.names.registers.find(name) {
        Some(number) => Ok(number),
        None => {
            let listed = listed_names(reading.alloc, &reading.names.registers);
            lacks(reading, at, "register", name, listed)
        }
    }
}

/// The number of an argument of the start.
pub(crate) fn argument(
    reading: &mut Reading<'_>,
    at: usize,
    name: &str,
) -> Result<u32, AllocError> {
    match reading.names.arguments.find(name) {
        Some(number) => Ok(number),
        None => {
            let listed = listed_names(reading.alloc, &reading.names.arguments);
            lacks(reading, at, "argument", name, listed)
        }
    }
}

/// The state that a text names.
pub(crate) fn state_in(reading: &mut Reading<'_>, node: &Node<'_>) -> Result<Place, AllocError> {
    let name = text_in(reading, node)?;
    let number = state(reading, node.at, name)?;
    Ok(Place { number })
}
