//! A rule as JSON.

use crate::asks::{ask_name, ask_word, say_of};
use crate::expressions::{is_nothing, push_expression, push_guard, push_operand};
use crate::page::{push_end, push_member, push_named, push_next, push_text};
use crate::scope::in_update;
use crate::words::Words;
use st_table::{Ask, Expression, Operand, Raised, Rule, Target, Update, Value};
use std::alloc::AllocError;

/// Adds a member that is an expression: a number alone as such, any other as a text.
pub(crate) fn push_computed(
    text: &mut String,
    words: Words<'_>,
    depth: usize,
    key: &str,
    value: &Expression,
) -> Result<(), AllocError> {
    push_member(text, depth, key)?;
    let mut inner = String::new(words.alloc);
    push_expression(&mut inner, words, value)?;
    match &value.first {
        Operand::Constant(Value::Number(_)) if value.terms.len() == 0 => {
            text.push_str(inner.as_str())
        }
        _ => push_text(text, inner.as_str()),
    }
}

/// Adds to whom a reply or a message goes.
fn push_to(text: &mut String, words: Words<'_>, to: &Operand) -> Result<(), AllocError> {
    let mut inner = String::new(words.alloc);
    push_operand(&mut inner, words, to)?;
    push_named(text, "to", inner.as_str())
}

/// Adds what an action has that others do not have.
fn push_own(text: &mut String, words: Words<'_>, ask: &Ask) -> Result<(), AllocError> {
    match ask {
        Ask::Reply(Operand::Caller, _) => Ok(()),
        Ask::Reply(to, _) => push_to(text, words, to),
        Ask::Send(to, _) => push_to(text, words, to),
        Ask::Raise(Raised::Cast, _) => push_named(text, "as", "cast"),
        Ask::Raise(Raised::Info, _) => push_named(text, "as", "info"),
        Ask::Set(_, time, _) => push_computed(text, words, 0, "after", time),
        _ => Ok(()),
    }
}

/// Adds what a time-out says, unless that is `timeout`.
fn push_say(text: &mut String, words: Words<'_>, ask: &Ask) -> Result<(), AllocError> {
    let symbol = match ask {
        Ask::Set(_, _, say) => say.symbol,
        Ask::Update(_, say) => say.symbol,
        _ => return Ok(()),
    };
    match words.names.symbols.name(symbol) {
        "timeout" => Ok(()),
        name => push_named(text, "say", name),
    }
}

/// Adds an action.
fn push_ask(text: &mut String, words: Words<'_>, ask: &Ask) -> Result<(), AllocError> {
    let Some(name) = ask_name(words.names, ask) else {
        return push_text(text, ask_word(ask));
    };
    text.push('{')?;
    push_named(text, ask_word(ask), name)?;
    push_own(text, words, ask)?;
    push_say(text, words, ask)?;
    if let Some(say) = say_of(ask) {
        if !is_nothing(&say.argument) {
            push_computed(text, words, 0, "with", &say.argument)?;
        }
    }
    push_end(text, 0, '}')
}

/// Adds actions: one alone, or a list.
fn push_asks(text: &mut String, words: Words<'_>, asks: &[Ask]) -> Result<(), AllocError> {
    if asks.is_empty() {
        return Ok(());
    }
    push_member(text, 0, "actions")?;
    if let [ask] = asks {
        return push_ask(text, words, ask);
    }
    text.push('[')?;
    for ask in asks {
        push_next(text, 0, false)?;
        push_ask(text, words, ask)?;
    }
    push_end(text, 0, ']')
}

/// Adds where a rule leads, unless it stays.
fn push_target(text: &mut String, words: Words<'_>, target: &Target) -> Result<(), AllocError> {
    match target {
        Target::Keep => Ok(()),
        Target::Next(place) => push_named(text, "target", words.names.states.name(place.number)),
        Target::Repeat => {
            push_member(text, 0, "reenter")?;
            text.push_str("true")
        }
        Target::Stop(reason) => push_computed(text, words, 0, "stop", reason),
    }
}

/// Adds the member of assignments.
fn push_updates(text: &mut String, words: Words<'_>, updates: &[Update]) -> Result<(), AllocError> {
    if updates.is_empty() {
        return Ok(());
    }
    let words = Words {
        scope: in_update(words.scope),
        ..words
    };
    push_member(text, 0, "assign")?;
    text.push('{')?;
    for update in updates {
        let name = words.names.registers.name(update.register);
        push_computed(text, words, 0, name, &update.value)?;
    }
    push_end(text, 0, '}')
}

/// Adds a rule.
pub(crate) fn push_rule(
    text: &mut String,
    words: Words<'_>,
    rule: &Rule,
) -> Result<(), AllocError> {
    text.push('{')?;
    if rule.guard.len() > 0 {
        let mut inner = String::new(words.alloc);
        push_guard(&mut inner, words, rule.guard.as_slice())?;
        push_named(text, "guard", inner.as_str())?;
    }
    push_target(text, words, &rule.target)?;
    push_updates(text, words, rule.updates.as_slice())?;
    push_asks(text, words, rule.asks.as_slice())?;
    push_end(text, 0, '}')
}
