//! Operands of expressions.

use crate::naming::{argument, register, state};
use crate::reading::Reading;
use crate::scope::{Part, Scope};
use crate::wording::listed_names;
use crate::words::Words;
use crate::{Operand, PlainText, Value};
use std::alloc::AllocError;

/// A word that has a meaning of its own.
#[derive(Clone, Copy)]
enum Meaning {
    None,
    Event,
    From,
    Reason,
    Caller,
    Own,
}

fn meaning_of(word: &str) -> Option<Meaning> {
    match word {
        "none" => Some(Meaning::None),
        "event" => Some(Meaning::Event),
        "from" => Some(Meaning::From),
        "reason" => Some(Meaning::Reason),
        "caller" => Some(Meaning::Caller),
        "self.id" => Some(Meaning::Own),
        _ => None,
    }
}

/// What a word is that may be an operand.
#[derive(Clone, Copy)]
enum Sort {
    Number,
    Name,
    Text,
    None,
}

fn sort_of(word: &str) -> Sort {
    let Some(first) = word.as_bytes().first() else {
        return Sort::None;
    };
    if first.is_ascii_digit() {
        Sort::Number
    } else if first.is_ascii_alphabetic() {
        Sort::Name
    } else if *first == b'\'' {
        Sort::Text
    } else {
        Sort::None
    }
}

/// Whether a word stands between operands.
fn is_between(word: &str) -> bool {
    word == "min" || word == "max" || word == "and"
}

/// Where else a word has its meaning, if it has none here.
fn elsewhere(meaning: Meaning, part: Part) -> Option<&'static str> {
    match (meaning, part) {
        (Meaning::Event, Part::Start | Part::Entry | Part::Last) => {
            Some(" stands in rules of events alone")
        }
        (Meaning::From, Part::Start | Part::Call | Part::Event | Part::Last) => {
            Some(" stands in entries alone")
        }
        (Meaning::Reason, Part::Start | Part::Entry | Part::Call | Part::Event) => {
            Some(" stands in \"last\" alone")
        }
        (Meaning::Own, Part::Start | Part::Entry | Part::Event | Part::Last) => {
            Some(" stands in rules of calls alone")
        }
        _ => None,
    }
}

fn meant(meaning: Meaning) -> Operand {
    match meaning {
        Meaning::None => Operand::Constant(Value::Nothing),
        Meaning::Event | Meaning::From | Meaning::Reason => Operand::Argument,
        Meaning::Caller => Operand::Caller,
        Meaning::Own => Operand::Own,
    }
}

/// A number. Where it is none, or too great, a fault is noted.
pub(crate) fn number(reading: &mut Reading<'_>, at: usize, text: &str) -> Result<u64, AllocError> {
    match text.parse::<u64>() {
        Ok(number) => Ok(number),
        Err(_) => {
            let after = " is no whole number from 0 to 18446744073709551615";
            reading.wrong_name(at, "", text, after)?;
            Ok(0)
        }
    }
}

/// A register as it was before the rule.
fn before(
    reading: &mut Reading<'_>,
    part: Part,
    at: usize,
    name: &str,
) -> Result<Operand, AllocError> {
    if let Part::Start = part {
        let text = "\"was.\" does not stand in a start: no register has changed there";
        reading.wrong(at, text)?;
    }
    Ok(Operand::Before(register(reading, at, name)?))
}

/// An argument of the start.
fn given(
    reading: &mut Reading<'_>,
    part: Part,
    at: usize,
    name: &str,
) -> Result<Operand, AllocError> {
    let (Part::Start) = part else {
        reading.wrong(at, "\"arg.\" stands in rules of a start alone")?;
        return Ok(Operand::Caller);
    };
    Ok(Operand::Before(argument(reading, at, name)?))
}

/// The number of a register. Where there is none, the word may have been meant as a text.
fn register_or_text(reading: &mut Reading<'_>, at: usize, word: &str) -> Result<u32, AllocError> {
    if let Some(number) = reading.names.registers.find(word) {
        return Ok(number);
    }
    let mut listed = listed_names(reading.alloc, &reading.names.registers)?;
    listed.push_str("; a text stands in single quotes")?;
    reading.unknown(at, "register", word, listed)?;
    Ok(0)
}

/// What a word with a dot, or a register's name, means.
fn named_operand(
    reading: &mut Reading<'_>,
    scope: Scope,
    at: usize,
    word: &str,
) -> Result<Operand, AllocError> {
    match word.split_once('.') {
        Some(("was", name)) => before(reading, scope.part, at, name),
        Some(("arg", name)) => given(reading, scope.part, at, name),
        Some(("state", name)) => {
            let number = state(reading, at, name)?;
            Ok(Operand::Constant(Value::Number(u64::from(number))))
        }
        _ => {
            let number = register_or_text(reading, at, word)?;
            Ok(if scope.is_before {
                Operand::Before(number)
            } else {
                Operand::Register(number)
            })
        }
    }
}

/// What a word of letters means.
fn word_operand(
    reading: &mut Reading<'_>,
    scope: Scope,
    at: usize,
    word: &str,
) -> Result<Operand, AllocError> {
    let Some(meaning) = meaning_of(word) else {
        return named_operand(reading, scope, at, word);
    };
    if let Some(after) = elsewhere(meaning, scope.part) {
        reading.wrong_name(at, "", word, after)?;
    }
    Ok(meant(meaning))
}

/// A text in single quotes.
fn text_operand(reading: &mut Reading<'_>, at: usize, word: &str) -> Result<Operand, AllocError> {
    match word
        .strip_prefix('\'')
        .and_then(|rest| rest.strip_suffix('\''))
    {
        Some(text) => {
            let text = PlainText::copied(reading.alloc, text)?;
            Ok(Operand::Constant(Value::Text(text)))
        }
        None => {
            reading.wrong(at, "this text has no ' at its end")?;
            Ok(Operand::Caller)
        }
    }
}

/// What a word means that may be an operand.
fn sorted_operand(
    reading: &mut Reading<'_>,
    scope: Scope,
    at: usize,
    word: &str,
    sort: Sort,
) -> Result<Operand, AllocError> {
    match sort {
        Sort::Number => {
            let number = number(reading, at, word)?;
            Ok(Operand::Constant(Value::Number(number)))
        }
        Sort::Text => text_operand(reading, at, word),
        _ => word_operand(reading, scope, at, word),
    }
}

/// The operand that the words begin with.
pub(crate) fn operand(
    reading: &mut Reading<'_>,
    scope: Scope,
    words: &mut Words<'_>,
) -> Result<Operand, AllocError> {
    let (at, word) = (words.at(), words.word);
    let sort = sort_of(word);
    if matches!(sort, Sort::None) || is_between(word) {
        words.wrong(
            reading,
            "a number, a name or a text in single quotes is wanted here",
        )?;
        return Ok(Operand::Caller);
    }
    words.advance();
    sorted_operand(reading, scope, at, word, sort)
}
