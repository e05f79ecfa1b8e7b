//! The labels of a diagram.

use crate::Drawing;
use crate::asks::{ask_name, ask_word};
use crate::expressions::{is_nothing, push_expression, push_guard};
use crate::scope::{Scope, in_update};
use crate::words::Words;
use st_table::{Ask, Rule, Target};
use std::alloc::AllocError;

/// Adds what is asked for, behind a comma.
fn push_ask(done: &mut String, words: Words<'_>, ask: &Ask) -> Result<(), AllocError> {
    done.push_str(", ")?;
    done.push_str(ask_word(ask))?;
    if let Some(name) = ask_name(words.names, ask) {
        write!(done, " {name}")?;
    }
    if let Ask::Set(_, time, _) = ask {
        done.push_str(" after ")?;
        push_expression(done, words, time)?;
        done.push_str(if is_nothing(time) { "" } else { " ms" })?;
    }
    Ok(())
}

/// Adds what a rule does, each behind a comma. What a start assigns is not shown.
fn push_done(done: &mut String, words: Words<'_>, rule: &Rule) -> Result<(), AllocError> {
    let scope = in_update(words.scope);
    for update in rule.updates.as_slice() {
        if let Scope::Start = scope {
            break;
        }
        let name = words.names.registers.name(update.register);
        write!(done, ", {name} = ")?;
        push_expression(done, Words { scope, ..words }, &update.value)?;
    }
    for ask in rule.asks.as_slice() {
        push_ask(done, words, ask)?;
    }
    match &rule.target {
        Target::Repeat => done.push_str(", reenter"),
        Target::Stop(reason) => {
            done.push_str(", stop ")?;
            push_expression(done, words, reason)
        }
        _ => Ok(()),
    }
}

/// Adds a rule's guard in brackets, and behind a stroke what the rule does.
pub(crate) fn push_rule(
    label: &mut String,
    words: Words<'_>,
    rule: &Rule,
) -> Result<(), AllocError> {
    if rule.guard.len() > 0 {
        label.push_str(" [")?;
        push_guard(label, words, rule.guard.as_slice())?;
        label.push(']')?;
    }
    let mut done = String::new(words.alloc);
    push_done(&mut done, words, rule)?;
    match done.as_str().strip_prefix(", ") {
        Some(done) => write!(label, " / {done}"),
        None => Ok(()),
    }
}

/// Whether a character means nothing to Mermaid in a label.
fn is_plain(character: char) -> bool {
    match character {
        ' '
        | '!'
        | '%'
        | '\''
        | '('
        | ')'
        | '+'
        | ','
        | '-'
        | '.'
        | '/'
        | '='
        | '?'
        | '@'
        | '['
        | ']'
        | '_' => true,
        other => other.is_ascii_alphanumeric() || !other.is_ascii(),
    }
}

/// Adds a character of a label. One that may mean something to Mermaid is written by its number, and so is a blank in a
/// text, since words in it may mean something too.
fn push_character(
    text: &mut String,
    drawing: Drawing,
    character: char,
    is_quoted: bool,
) -> Result<(), AllocError> {
    let number = u32::from(character);
    match (drawing, character) {
        (Drawing::Dot, '"') => text.push_str("\\\""),
        (Drawing::Dot, '\\') => text.push_str("\\\\"),
        (Drawing::Dot, '&') => text.push_str("&amp;"),
        (Drawing::Dot, _) => text.push(character),
        (_, '<') => text.push_str("#lt;"),
        (_, '>') => text.push_str("#gt;"),
        (_, ' ') if is_quoted => text.push_str("#32;"),
        _ if is_plain(character) => text.push(character),
        _ => write!(text, "#{number};"),
    }
}

/// Adds a label, in which no character means anything to the language. One that steers a terminal is a space.
pub(crate) fn push_label(
    text: &mut String,
    drawing: Drawing,
    label: &str,
) -> Result<(), AllocError> {
    let mut is_quoted = false;
    for character in label.chars() {
        let shown = if character.is_control() {
            ' '
        } else {
            character
        };
        is_quoted = is_quoted != (shown == '\'');
        push_character(text, drawing, shown, is_quoted)?;
    }
    Ok(())
}
