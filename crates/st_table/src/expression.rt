//! What is computed of registers, of what is at hand, and of constants.
ghost use Rattle.std.specs.Prelude.{◌≡◌};
ghost use Rattle.st_table.specs.Values.{caller_of, own_of, register, operand_of, after_term, after_terms, value_of, number_of, at_most_32_bits, time_of};
ghost use Rattle.st_table.specs.Lent.{shown, hears};

use crate::arithmetic::{at_most_32_bits, computed};
use crate::at_hand::AtHand;
use crate::seen::{Seen, lent, number_of};
use crate::{Operand, Term, Value};
use st_events::{PlainList, Tag, Time};

/// A value, and terms that are applied to it one after the other, from left to right and without precedence.
///
/// Without terms it is any value, as it stands. With terms it is a number, and a value that is no number counts as 0.
#[derive(Drop)]
pub struct Expression {
    /// The value at first.
    pub first: Operand,
    /// The terms, in the order in which they are applied.
    pub terms: PlainList<Term>,
}

/// A register, or nothing where there are not so many.
fn register(registers: &[Value], index: u32) -> Seen<'_>
    ensures { shown result ≡ register registers.now index }
{
    match registers.get(index as usize) {
        Some(value) => lent(value),
        None => Seen::Nothing,
    }
}

/// The tag of a call.
fn caller_of<'a>(tag: Option<Tag>) -> Seen<'a>
    ensures { shown result ≡ caller_of tag }
{
    match tag {
        Some(tag) => Seen::Call(tag),
        None => Seen::Nothing,
    }
}

/// The machine that is called.
fn own_of<'a>(tag: Option<Tag>) -> Seen<'a>
    ensures { shown result ≡ own_of tag }
{
    match tag {
        Some(tag) => Seen::Machine(tag.machine),
        None => Seen::Nothing,
    }
}

/// The value of an operand.
pub(crate) fn operand_of<'a>(
    operand: &'a Operand,
    at: AtHand<'a>,
    before: &'a [Value],
    registers: &'a [Value],
) -> Seen<'a>
    ensures { shown result ≡ operand_of operand.now (hears at.entry) before.now registers.now }
{
    match operand {
        Operand::Constant(value) => lent(value),
        Operand::Register(index) => register(registers, *index),
        Operand::Before(index) => register(before, *index),
        Operand::Argument => at.argument,
        Operand::Caller => caller_of(at.tag),
        Operand::Own => own_of(at.tag),
    }
}

/// The value after one term.
fn after_term<'a>(
    term: &Term,
    value: Seen<'_>,
    at: AtHand<'_>,
    before: &[Value],
    registers: &[Value],
) -> Seen<'a>
    ensures { shown result ≡ after_term (hears at.entry) before.now registers.now term.now (shown value.entry) }
{
    let operand = operand_of(&term.operand, at, before, registers);
    let number = computed(term.operator, number_of(value), number_of(operand));
    Seen::Number(number)
}

/// The value after terms.
fn after_terms<'a>(
    terms: &[Term],
    first: Seen<'a>,
    at: AtHand<'_>,
    before: &[Value],
    registers: &[Value],
) -> Seen<'a>
    ensures { shown result ≡ after_terms (hears at.entry) before.now registers.now terms.now (shown first.entry) }
{
    let mut value = first;
    for term in terms {
        value = after_term(term, value, at, before, registers);
    }
    value
}

/// The value of an expression.
pub(crate) fn value_of<'a>(
    expression: &'a Expression,
    at: AtHand<'a>,
    before: &'a [Value],
    registers: &'a [Value],
) -> Seen<'a>
    ensures { shown result ≡ value_of (hears at.entry) before.now registers.now expression.now }
{
    let first = operand_of(&expression.first, at, before, registers);
    after_terms(expression.terms.as_slice(), first, at, before, registers)
}

/// The number of 32 bits that an expression gives, as a reason or a last word.
pub(crate) fn short_number_of(
    expression: &Expression,
    at: AtHand<'_>,
    before: &[Value],
    registers: &[Value],
) -> u32
    ensures { result ≡ at_most_32_bits (number_of (value_of (hears at.entry) before.now registers.now expression.now)) }
{
    at_most_32_bits(number_of(value_of(expression, at, before, registers)))
}

/// How long a time-out lasts, of a value.
pub(crate) fn time_of(value: Seen<'_>) -> Time
    ensures { result ≡ time_of (shown value.entry) }
{
    match value {
        Seen::Number(number) => Time::After(at_most_32_bits(number)),
        _ => Time::Infinity,
    }
}
