//! Guards.

use crate::expressions::expression;
use crate::lists::add_to;
use crate::reading::Reading;
use crate::scope::Scope;
use crate::tree::{Node, Shape};
use crate::words::Words;
use crate::{PlainList, Relation, Test};
use std::alloc::AllocError;

/// How many comparisons a guard has at most.
const MOST_TESTS: usize = 16;

/// The relation that a word is, and whether its two sides change places.
fn relation_of(word: &str) -> Option<(Relation, bool)> {
    match word {
        "==" => Some((Relation::Equal, false)),
        "!=" => Some((Relation::Different, false)),
        "<" => Some((Relation::Less, false)),
        "<=" => Some((Relation::AtMost, false)),
        ">" => Some((Relation::Less, true)),
        ">=" => Some((Relation::AtMost, true)),
        _ => None,
    }
}

/// Reads one comparison.
fn test(
    reading: &mut Reading<'_>,
    scope: Scope,
    words: &mut Words<'_>,
    tests: &mut PlainList<Test>,
) -> Result<(), AllocError> {
    let left = expression(reading, scope, words)?;
    let Some((relation, is_turned)) = relation_of(words.word) else {
        return words.wrong(reading, "one of == != < <= > >= is wanted here");
    };
    words.advance();
    let right = expression(reading, scope, words)?;
    let (left, right) = if is_turned {
        (right, left)
    } else {
        (left, right)
    };
    add_to(
        tests,
        Test {
            left,
            relation,
            right,
        },
    )
}

/// Reads a guard.
pub(crate) fn guard(
    reading: &mut Reading<'_>,
    scope: Scope,
    node: &Node<'_>,
    tests: &mut PlainList<Test>,
) -> Result<(), AllocError> {
    let (Shape::Text) = node.shape else {
        return reading.wanted(node, "a text with comparisons is wanted here");
    };
    let mut words = Words::new(reading, node.at, node.text);
    for _ in 0..MOST_TESTS {
        test(reading, scope, &mut words, tests)?;
        if words.word.is_empty() {
            return Ok(());
        }
        if words.word != "and" {
            return words.wrong(
                reading,
                "an operator, \"and\" or the end of the text is wanted here",
            );
        }
        words.advance();
    }
    words.wrong(reading, "more than 16 comparisons")
}
