//! Rules of events, by the keys under which they stand.

use crate::naming::{symbol, timer};
use crate::reading::Reading;
use crate::rules::{Heading, MOST_RULES, rules_in};
use crate::scope::Part;
use crate::tree::{Node, Shape};
use crate::{Mark, Names, On, PlainList, Rule, Timer};
use std::alloc::{AllocError, Global};

/// The first word of a key.
#[derive(Clone, Copy)]
enum Class {
    Call,
    Cast,
    Info,
    Internal,
    Timeout,
    Any,
}

fn class_of(word: &str) -> Option<Class> {
    match word {
        "call" => Some(Class::Call),
        "cast" => Some(Class::Cast),
        "info" => Some(Class::Info),
        "internal" => Some(Class::Internal),
        "timeout" => Some(Class::Timeout),
        "*" => Some(Class::Any),
        _ => None,
    }
}

/// The parts of a key: its kind, as it is and as it stands, and its name, which is `*` where there is none.
fn parted(key: &str) -> Option<(Class, &str, &str)> {
    let (kind, name) = match key.split_once(' ') {
        Some((kind, rest)) => (kind, rest.trim_start_matches(' ')),
        None => (key, "*"),
    };
    let class = class_of(kind)?;
    Some((class, kind, name))
}

/// How many ranks of keys there are. Keys of a lower rank come first: they say more.
const RANKS: u8 = 4;

fn rank_of(class: Class, name: &str) -> u8 {
    match (class, name) {
        (Class::Any, "*") => 3,
        (Class::Any, _) => 2,
        (_, "*") => 1,
        _ => 0,
    }
}

/// The kind of the events of a key that is no time-out's.
fn kind_of(class: Class) -> On {
    match class {
        Class::Call => On::Call,
        Class::Cast => On::Cast,
        Class::Info => On::Info,
        Class::Internal => On::Internal,
        Class::Timeout => On::AnyTimeout,
        Class::Any => On::Any,
    }
}

/// In which part the rules of a key stand.
fn part_of(class: Class) -> Part {
    match class {
        Class::Call => Part::Call,
        _ => Part::Event,
    }
}

/// Which time-outs are of a name.
fn timeout_of(timer: Timer) -> On {
    match timer {
        Timer::Event => On::EventTimeout,
        Timer::State => On::StateTimeout,
        Timer::Named(number) => On::NamedTimeout(number),
    }
}

/// For which events a key's rules are.
fn events_of(
    reading: &mut Reading<'_>,
    at: usize,
    class: Class,
    name: &str,
) -> Result<(On, Option<u32>), AllocError> {
    match (class, name) {
        (_, "*") => Ok((kind_of(class), None)),
        (Class::Timeout, _) => Ok((timeout_of(timer(reading, at, name)?), None)),
        _ => Ok((kind_of(class), Some(symbol(reading, at, name)?))),
    }
}

/// A key as it is written with one blank.
fn whole_key(alloc: Global, kind: &str, name: &str) -> Result<String, AllocError> {
    match (kind, name) {
        ("*", "*") => String::from_str(alloc, "*"),
        _ => format!(in alloc; "{kind} {name}"),
    }
}

/// Whether a key comes in for the first time.
fn is_first(alloc: Global, keys: &mut Names, kind: &str, name: &str) -> Result<bool, AllocError> {
    let before = keys.len();
    let whole = whole_key(alloc, kind, name)?;
    match keys.number(alloc, whole.as_str()) {
        Ok(_) => Ok(keys.len() > before),
        Err(error) => Err(error),
    }
}

/// Where a key stands first that means this.
fn first_at(on: &Node<'_>, kind: &str, name: &str) -> Option<usize> {
    for part in &on.parts {
        if let Some((_, other_kind, other_name)) = parted(part.key) {
            if other_kind == kind && other_name == name {
                return Some(part.key_at);
            }
        }
    }
    None
}

/// Notes a key that is none, or that stands a second time.
fn check_key(
    reading: &mut Reading<'_>,
    on: &Node<'_>,
    part: &Node<'_>,
    keys: &mut Names,
) -> Result<(), AllocError> {
    let Some((_, kind, name)) = parted(part.key) else {
        let text = "a key is call, cast, info, internal, timeout or *, a blank, and a name or *";
        return reading.stands(part.key_at, text, part.key);
    };
    if is_first(reading.alloc, keys, kind, name)? {
        return Ok(());
    }
    let first = first_at(on, kind, name).unwrap_or(on.at);
    reading.double(part.key_at, part.key, first)
}

/// Notes keys that are none, or that stand a second time.
fn check_keys(
    reading: &mut Reading<'_>,
    on: &Node<'_>,
    keys: &mut Names,
) -> Result<(), AllocError> {
    for (place, part) in on.parts.iter().enumerate() {
        if place == MOST_RULES {
            return reading.wrong(part.key_at, "more than 10,000 keys");
        }
        if reading.faults.is_full() {
            break;
        }
        check_key(reading, on, part, keys)?;
    }
    Ok(())
}

/// Reads the rules of a key, which is written so with one blank.
fn headed(
    reading: &mut Reading<'_>,
    part: &Node<'_>,
    class: Class,
    name: &str,
    key: &str,
    rules: &mut PlainList<Rule>,
    marks: &mut PlainList<Mark>,
) -> Result<(), AllocError> {
    let (on, symbol) = events_of(reading, part.key_at, class, name)?;
    let heading = Heading {
        part: part_of(class),
        on,
        symbol,
        key,
    };
    rules_in(reading, heading, None, part, rules, marks)
}

/// Reads the rules of a key. One without rules gives its name no number.
fn keyed(
    reading: &mut Reading<'_>,
    part: &Node<'_>,
    key: (Class, &str, &str),
    rules: &mut PlainList<Rule>,
    marks: &mut PlainList<Mark>,
) -> Result<(), AllocError> {
    if matches!(part.shape, Shape::List) && part.parts.is_empty() {
        return Ok(());
    }
    let (class, kind, name) = key;
    let whole = whole_key(reading.alloc, kind, name)?;
    headed(reading, part, class, name, whole.as_str(), rules, marks)
}

/// Reads the rules of the keys of one rank.
fn ranked(
    reading: &mut Reading<'_>,
    on: &Node<'_>,
    rank: u8,
    rules: &mut PlainList<Rule>,
    marks: &mut PlainList<Mark>,
) -> Result<(), AllocError> {
    for part in &on.parts {
        if reading.faults.is_full() {
            break;
        }
        if let Some(key) = parted(part.key) {
            if rank_of(key.0, key.2) == rank {
                keyed(reading, part, key, rules, marks)?;
            }
        }
    }
    Ok(())
}

/// Reads the rules of a state's time-out.
fn after_rules(
    reading: &mut Reading<'_>,
    after: &Node<'_>,
    rules: &mut PlainList<Rule>,
    marks: &mut PlainList<Mark>,
) -> Result<(), AllocError> {
    let heading = Heading {
        part: Part::Event,
        on: On::StateTimeout,
        symbol: None,
        key: "after",
    };
    rules_in(reading, heading, None, after, rules, marks)
}

/// Notes what is wrong in the keys of rules of events, and that a state has two keys of its time-out.
fn check_on(
    reading: &mut Reading<'_>,
    on: &Node<'_>,
    after: Option<&Node<'_>>,
) -> Result<(), AllocError> {
    let (Shape::Object) = on.shape else {
        return reading.wanted(on, "an object is wanted here: keys and their rules");
    };
    let mut keys = Names::new(reading.alloc);
    check_keys(reading, on, &mut keys)?;
    match (first_at(on, "timeout", "state"), after) {
        (Some(at), Some(after)) => {
            let (first, second) = (at.min(after.key_at), at.max(after.key_at));
            reading.double(second, "timeout state", first)
        }
        _ => Ok(()),
    }
}

/// Reads the rules of events of a state or of any state, in the order in which they are tried, with those of the state's
/// time-out, if it has one.
pub(crate) fn events(
    reading: &mut Reading<'_>,
    on: Option<&Node<'_>>,
    after: Option<&Node<'_>>,
    rules: &mut PlainList<Rule>,
    marks: &mut PlainList<Mark>,
) -> Result<(), AllocError> {
    if let Some(on) = on {
        check_on(reading, on, after)?;
        ranked(reading, on, 0, rules, marks)?;
    }
    if let Some(after) = after {
        after_rules(reading, after, rules, marks)?;
    }
    if let Some(on) = on {
        for rank in 1..RANKS {
            ranked(reading, on, rank, rules, marks)?;
        }
    }
    Ok(())
}
