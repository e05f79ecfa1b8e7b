//! Rules.

use crate::actions::actions;
use crate::expressions::{expression_in, nothing, text_expression};
use crate::guard::guard;
use crate::lists::add_to;
use crate::members::{description, is_double, is_object_of, is_set};
use crate::naming::{register, state_in, symbol};
use crate::reading::Reading;
use crate::scope::{Part, Scope};
use crate::tree::{Node, Shape};
use crate::{Ask, Expression, Mark, On, PlainList, Rule, Say, Target, Timer, Update};
use std::alloc::{AllocError, Global};

/// How many rules a key has at most.
const MOST_OF_A_KEY: usize = 64;

/// How many rules there are at most, and how many keys they stand under at most.
pub(crate) const MOST_RULES: usize = 10_000;

/// For what events rules are, and where they stand.
#[derive(Clone, Copy)]
pub(crate) struct Heading<'k> {
    pub(crate) part: Part,
    pub(crate) on: On,
    pub(crate) symbol: Option<u32>,
    /// The key under which they stand.
    pub(crate) key: &'k str,
}

/// A rule of which all is to come.
pub(crate) fn blank_rule(alloc: Global, on: On, symbol: Option<u32>) -> Rule {
    Rule {
        on,
        symbol,
        guard: PlainList::new(alloc),
        updates: PlainList::new(alloc),
        target: Target::Keep,
        asks: PlainList::new(alloc),
    }
}

/// Where a rule stands.
pub(crate) fn mark(reading: &Reading<'_>, at: usize, key: &str) -> Result<Mark, AllocError> {
    let spot = reading.places.spot(at);
    Ok(Mark {
        line: spot.line,
        column: spot.column,
        key: String::from_str(reading.alloc, key)?,
    })
}

/// Adds where a rule stands.
pub(crate) fn add_mark(
    reading: &Reading<'_>,
    at: usize,
    key: &str,
    marks: &mut PlainList<Mark>,
) -> Result<(), AllocError> {
    let mark = mark(reading, at, key)?;
    add_to(marks, mark)
}

/// Reads what a rule assigns.
fn assignments(
    reading: &mut Reading<'_>,
    part: Part,
    node: &Node<'_>,
    updates: &mut PlainList<Update>,
) -> Result<(), AllocError> {
    let (Shape::Object) = node.shape else {
        return reading.wanted(node, "an object is wanted here: registers and their values");
    };
    for member in &node.parts {
        if reading.faults.is_full() {
            break;
        }
        is_double(reading, node, member)?;
        let register = register(reading, member.key_at, member.key)?;
        let value = expression_in(reading, Scope::assignment(part), member)?;
        add_to(updates, Update { register, value })?;
    }
    Ok(())
}

/// Notes a member of a rule that cannot stand with another, or in its part.
fn refuse(
    reading: &mut Reading<'_>,
    node: &Node<'_>,
    key: &str,
    after: &str,
) -> Result<(), AllocError> {
    match node.member(key) {
        Some(member) => reading.wrong_name(member.key_at, "", key, after),
        None => Ok(()),
    }
}

/// Notes what cannot stand with one another, or in the part.
fn check_target(
    reading: &mut Reading<'_>,
    part: Part,
    node: &Node<'_>,
    repeats: bool,
) -> Result<(), AllocError> {
    if let Part::Entry = part {
        refuse(
            reading,
            node,
            "target",
            " cannot stand in an entry, which leads to no other state",
        )?;
    }
    if repeats && matches!(part, Part::Entry | Part::Start) {
        refuse(reading, node, "reenter", " stands in rules of events alone")?;
    }
    if node.member("stop").is_some() {
        refuse(reading, node, "target", " cannot stand beside \"stop\"")?;
        refuse(reading, node, "reenter", " cannot stand beside \"stop\"")?;
    }
    if repeats && node.member("target").is_some() {
        refuse(reading, node, "reenter", " cannot stand beside \"target\"")?;
    }
    Ok(())
}

/// The reason of an end. A number that is none is a fault.
fn reason(
    reading: &mut Reading<'_>,
    part: Part,
    node: &Node<'_>,
) -> Result<Expression, AllocError> {
    if let Ok(number) = node.text.parse::<u64>() {
        if number > u64::from(u32::MAX) {
            let after = " is no reason, which is a number below 4294967296";
            reading.wrong_name(node.at, "", node.text, after)?;
        }
    }
    expression_in(reading, Scope::now(part), node)
}

/// Where a rule leads.
fn target(reading: &mut Reading<'_>, part: Part, node: &Node<'_>) -> Result<Target, AllocError> {
    let repeats = is_set(reading, node, "reenter")?;
    check_target(reading, part, node, repeats)?;
    if let Some(member) = node.member("stop") {
        return Ok(Target::Stop(reason(reading, part, member)?));
    }
    if let Some(place) = node.member("target") {
        return Ok(Target::Next(state_in(reading, place)?));
    }
    Ok(if repeats {
        Target::Repeat
    } else {
        Target::Keep
    })
}

/// Says where a rule leads.
pub(crate) fn set_target(rule: &mut Rule, target: Target) {
    rule.target = target;
}

/// Reads the guard and the assignments of a rule.
fn fill_first(
    reading: &mut Reading<'_>,
    part: Part,
    node: &Node<'_>,
    rule: &mut Rule,
) -> Result<(), AllocError> {
    if let Some(member) = node.member("guard") {
        guard(reading, Scope::now(part), member, &mut rule.guard)?;
    }
    match node.member("assign") {
        Some(member) => assignments(reading, part, member, &mut rule.updates),
        None => Ok(()),
    }
}

/// Reads a rule that is an object.
fn fill(
    reading: &mut Reading<'_>,
    part: Part,
    node: &Node<'_>,
    rule: &mut Rule,
) -> Result<(), AllocError> {
    let words = "guard target reenter stop assign actions description";
    if !is_object_of(reading, node, "a rule has no ", words)? {
        return Ok(());
    }
    description(reading, node)?;
    fill_first(reading, part, node, rule)?;
    let target = target(reading, part, node)?;
    set_target(rule, target);
    match node.member("actions") {
        Some(member) => actions(reading, part, member, &mut rule.asks),
        None => Ok(()),
    }
}

/// Adds that the state time-out is set for so long as a member's key says.
pub(crate) fn add_after(
    reading: &mut Reading<'_>,
    member: &Node<'_>,
    asks: &mut PlainList<Ask>,
) -> Result<(), AllocError> {
    let scope = Scope::now(Part::Entry);
    let symbol = symbol(reading, member.key_at, "timeout")?;
    let time = text_expression(reading, scope, member.key_at, member.key)?;
    let say = Say {
        symbol,
        argument: nothing(reading.alloc),
    };
    add_to(asks, Ask::Set(Timer::State, time, say))
}

const RULES: &str = "an object, for events also a state's name, or a list of these is wanted here";

/// Reads a rule: an object, or for events a state's name. An entry sets the state's time-out, if there is one.
fn fill_rule(
    reading: &mut Reading<'_>,
    part: Part,
    after: Option<&Node<'_>>,
    node: &Node<'_>,
    rule: &mut Rule,
) -> Result<(), AllocError> {
    match (node.shape, part) {
        (Shape::Text, Part::Call | Part::Event) => {
            let place = state_in(reading, node)?;
            set_target(rule, Target::Next(place));
        }
        (Shape::Object, _) => fill(reading, part, node, rule)?,
        _ => reading.wanted(node, RULES)?,
    }
    match after {
        Some(member) => add_after(reading, member, &mut rule.asks),
        None => Ok(()),
    }
}

/// Reads a rule to the end of others.
fn add_rule(
    reading: &mut Reading<'_>,
    heading: Heading<'_>,
    after: Option<&Node<'_>>,
    node: &Node<'_>,
    rules: &mut PlainList<Rule>,
) -> Result<(), AllocError> {
    let mut rule = blank_rule(reading.alloc, heading.on, heading.symbol);
    match fill_rule(reading, heading.part, after, node, &mut rule) {
        Ok(()) => add_to(rules, rule),
        Err(error) => Err(error),
    }
}

/// Reads a rule and its mark, unless there are too many.
fn add_marked(
    reading: &mut Reading<'_>,
    heading: Heading<'_>,
    after: Option<&Node<'_>>,
    node: &Node<'_>,
    rules: &mut PlainList<Rule>,
    marks: &mut PlainList<Mark>,
) -> Result<(), AllocError> {
    if reading.rules > MOST_RULES {
        return Ok(());
    }
    reading.rules += 1;
    if reading.rules > MOST_RULES {
        return reading.wrong(node.at, "more than 10,000 rules");
    }
    add_mark(reading, node.at, heading.key, marks)?;
    add_rule(reading, heading, after, node, rules)
}

/// Reads the rules of a key: one, or a list. Of entries it is told the member that says how long the state's time-out lasts,
/// if there is one.
pub(crate) fn rules_in(
    reading: &mut Reading<'_>,
    heading: Heading<'_>,
    after: Option<&Node<'_>>,
    node: &Node<'_>,
    rules: &mut PlainList<Rule>,
    marks: &mut PlainList<Mark>,
) -> Result<(), AllocError> {
    let (Shape::List) = node.shape else {
        return add_marked(reading, heading, after, node, rules, marks);
    };
    for (place, one) in node.parts.iter().enumerate() {
        if place == MOST_OF_A_KEY {
            return reading.wrong(one.at, "more than 64 rules of one key");
        }
        if reading.faults.is_full() {
            break;
        }
        add_marked(reading, heading, after, one, rules, marks)?;
    }
    Ok(())
}
