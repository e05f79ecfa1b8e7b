//! Expressions and guards, as a description has them.

use crate::scope::Scope;
use crate::words::Words;
use st_table::{Expression, Operand, Operator, Relation, Test, Value};
use std::alloc::AllocError;

/// Whether an expression is nothing, and no more.
pub(crate) fn is_nothing(expression: &Expression) -> bool {
    match &expression.first {
        Operand::Constant(Value::Nothing) => expression.terms.len() == 0,
        _ => false,
    }
}

/// Adds a register as it was before the rule, or an argument of a start.
fn push_before(text: &mut String, words: Words<'_>, index: u32) -> Result<(), AllocError> {
    let register = words.names.registers.name(index);
    match words.scope {
        Scope::Start => {
            let argument = words.names.arguments.name(index);
            write!(text, "arg.{argument}")
        }
        Scope::EntryUpdate => text.push_str(register),
        Scope::EventUpdate => text.push_str(register),
        _ => write!(text, "was.{register}"),
    }
}

/// The word for what is at hand.
fn argument_word(scope: Scope) -> &'static str {
    match scope {
        Scope::Entry => "from",
        Scope::EntryUpdate => "from",
        Scope::Last => "reason",
        _ => "event",
    }
}

/// Adds an operand.
pub(crate) fn push_operand(
    text: &mut String,
    words: Words<'_>,
    operand: &Operand,
) -> Result<(), AllocError> {
    match operand {
        Operand::Constant(Value::Number(number)) => write!(text, "{number}"),
        Operand::Constant(Value::Text(held)) => {
            let held = held.as_str();
            write!(text, "'{held}'")
        }
        Operand::Constant(_) => text.push_str("none"),
        Operand::Register(index) => text.push_str(words.names.registers.name(*index)),
        Operand::Before(index) => push_before(text, words, *index),
        Operand::Argument => text.push_str(argument_word(words.scope)),
        Operand::Caller => text.push_str("caller"),
        Operand::Own => text.push_str("self.id"),
    }
}

/// The sign of an operator.
fn operator_word(operator: Operator) -> &'static str {
    match operator {
        Operator::Plus => " + ",
        Operator::Minus => " - ",
        Operator::Times => " * ",
        Operator::Over => " / ",
        Operator::Remainder => " % ",
        Operator::Least => " min ",
        Operator::Greatest => " max ",
    }
}

/// Adds an expression. Brackets show that it is computed from left to right.
pub(crate) fn push_expression(
    text: &mut String,
    words: Words<'_>,
    expression: &Expression,
) -> Result<(), AllocError> {
    let terms = expression.terms.as_slice();
    for _ in 1..terms.len() {
        text.push('(')?;
    }
    push_operand(text, words, &expression.first)?;
    for (place, term) in terms.iter().enumerate() {
        text.push_str(if place > 0 { ")" } else { "" })?;
        text.push_str(operator_word(term.operator))?;
        push_operand(text, words, &term.operand)?;
    }
    Ok(())
}

/// The sign of a relation.
fn relation_word(relation: Relation) -> &'static str {
    match relation {
        Relation::Equal => " == ",
        Relation::Different => " != ",
        Relation::Less => " < ",
        Relation::AtMost => " <= ",
    }
}

/// Adds a guard.
pub(crate) fn push_guard(
    text: &mut String,
    words: Words<'_>,
    tests: &[Test],
) -> Result<(), AllocError> {
    for (place, test) in tests.iter().enumerate() {
        text.push_str(if place > 0 { " and " } else { "" })?;
        push_expression(text, words, &test.left)?;
        text.push_str(relation_word(test.relation))?;
        push_expression(text, words, &test.right)?;
    }
    Ok(())
}
