//! Expressions.

use crate::lists::add_to;
use crate::operand::{number, operand};
use crate::reading::Reading;
use crate::scope::Scope;
use crate::tree::{Node, Shape};
use crate::words::Words;
use crate::{Expression, Operand, Operator, PlainList, Term, Value};
use std::alloc::{AllocError, Global};

/// How many terms an expression has at most.
const MOST_TERMS: usize = 64;

/// How deep brackets nest at most.
const MOST_BRACKETS: usize = 64;

/// How strongly the strongest operators bind.
const STRONGEST: u8 = 2;

/// An expression that is one operand.
pub(crate) fn alone(alloc: Global, first: Operand) -> Expression {
    Expression {
        first,
        terms: PlainList::new(alloc),
    }
}

/// The expression that is nothing.
pub(crate) fn nothing(alloc: Global) -> Expression {
    alone(alloc, Operand::Constant(Value::Nothing))
}

/// The operator that a word is, and how strongly it binds.
fn operator_of(word: &str) -> Option<(Operator, u8)> {
    match word {
        "min" => Some((Operator::Least, 0)),
        "max" => Some((Operator::Greatest, 0)),
        "+" => Some((Operator::Plus, 1)),
        "-" => Some((Operator::Minus, 1)),
        "*" => Some((Operator::Times, STRONGEST)),
        "/" => Some((Operator::Over, STRONGEST)),
        "%" => Some((Operator::Remainder, STRONGEST)),
        _ => None,
    }
}

/// Passes the brackets that open an expression. How many they are.
fn opened(reading: &mut Reading<'_>, words: &mut Words<'_>) -> Result<usize, AllocError> {
    for count in 0..MOST_BRACKETS {
        if words.word != "(" {
            return Ok(count);
        }
        words.advance();
    }
    if words.word == "(" {
        words.wrong(reading, "more than 64 brackets are open")?;
    }
    Ok(MOST_BRACKETS)
}

/// Passes the brackets that close here. How many are open behind them.
fn closed(words: &mut Words<'_>, open: usize) -> usize {
    for count in 0..open {
        if words.word != ")" {
            return open - count;
        }
        words.advance();
    }
    0
}

/// Reads one term more.
fn further_term(
    reading: &mut Reading<'_>,
    scope: Scope,
    words: &mut Words<'_>,
    operator: Operator,
    terms: &mut PlainList<Term>,
) -> Result<(), AllocError> {
    if terms.len() == MOST_TERMS {
        return words.wrong(reading, "more than 64 terms");
    }
    words.advance();
    let operand = operand(reading, scope, words)?;
    add_to(terms, Term { operator, operand })
}

/// Reads the terms of an expression, of which so many brackets are open.
fn further_terms(
    reading: &mut Reading<'_>,
    scope: Scope,
    words: &mut Words<'_>,
    mut open: usize,
    terms: &mut PlainList<Term>,
) -> Result<(), AllocError> {
    let mut level = STRONGEST;
    for _ in 0..=MOST_TERMS {
        let left = closed(words, open);
        if left < open {
            level = STRONGEST;
        }
        open = left;
        let Some((operator, binds)) = operator_of(words.word) else {
            break;
        };
        if binds > level {
            let text =
                "this is computed from left to right, so brackets are wanted, as in (a + b) * c";
            return words.wrong(reading, text);
        }
        level = binds;
        further_term(reading, scope, words, operator, terms)?;
    }
    if open > 0 {
        return words.wrong(reading, "\")\" is wanted here");
    }
    Ok(())
}

/// The expression that the words begin with.
pub(crate) fn expression(
    reading: &mut Reading<'_>,
    scope: Scope,
    words: &mut Words<'_>,
) -> Result<Expression, AllocError> {
    let open = opened(reading, words)?;
    let mut whole = alone(reading.alloc, operand(reading, scope, words)?);
    further_terms(reading, scope, words, open, &mut whole.terms)?;
    Ok(whole)
}

/// Notes a word where there is to be none.
fn ended(reading: &mut Reading<'_>, words: &mut Words<'_>, text: &str) -> Result<(), AllocError> {
    if words.word.is_empty() {
        return Ok(());
    }
    words.wrong(reading, text)
}

/// The expression that a text is.
pub(crate) fn text_expression(
    reading: &mut Reading<'_>,
    scope: Scope,
    at: usize,
    text: &str,
) -> Result<Expression, AllocError> {
    let mut words = Words::new(reading, at, text);
    let whole = expression(reading, scope, &mut words)?;
    match ended(
        reading,
        &mut words,
        "an operator or the end of the text is wanted here",
    ) {
        Ok(()) => Ok(whole),
        Err(error) => Err(error),
    }
}

/// The expression that a value is: a number or a text.
pub(crate) fn expression_in(
    reading: &mut Reading<'_>,
    scope: Scope,
    node: &Node<'_>,
) -> Result<Expression, AllocError> {
    match node.shape {
        Shape::Text => text_expression(reading, scope, node.at, node.text),
        Shape::Number => {
            let number = number(reading, node.at, node.text)?;
            Ok(alone(reading.alloc, Operand::Constant(Value::Number(number))))
        }
        _ => {
            reading.wanted(
                node,
                "a number, or a text with an expression, is wanted here",
            )?;
            Ok(nothing(reading.alloc))
        }
    }
}

/// The operand that a value is: a text.
pub(crate) fn operand_in(
    reading: &mut Reading<'_>,
    scope: Scope,
    node: &Node<'_>,
) -> Result<Operand, AllocError> {
    let (Shape::Text) = node.shape else {
        reading.wanted(node, "a text with one operand is wanted here")?;
        return Ok(Operand::Caller);
    };
    let mut words = Words::new(reading, node.at, node.text);
    let whole = operand(reading, scope, &mut words)?;
    match ended(reading, &mut words, "the end of the text is wanted here") {
        Ok(()) => Ok(whole),
        Err(error) => Err(error),
    }
}
