//! Numbers that stop at 0 and at the greatest.
ghost use Rattle.std.specs.Prelude.{◌≡◌, ◌≤◌, ◌^◌, ◌<◌};
ghost use Rattle.st_table.specs.Values.{computed, quotient, remainder, at_most_32_bits};

use crate::Operator;

/// What a number and the next one give.
pub(crate) fn computed(operator: Operator, left: u64, right: u64) -> u64
    ensures { result ≡ computed operator left right }
{
    match operator {
        Operator::Plus => left.saturating_add(right),
        Operator::Minus => left.saturating_sub(right),
        Operator::Times => left.saturating_mul(right),
        Operator::Over => quotient(left, right),
        Operator::Remainder => remainder(left, right),
        Operator::Least => { if left < right { left } else { right } }
        Operator::Greatest => { if left < right { right } else { left } }
    }
}

/// A quotient; 0 where the divisor is 0.
fn quotient(left: u64, right: u64) -> u64
    ensures { result ≡ quotient left right }
{
    if right == 0 { 0 } else { left / right }
}

/// What a division leaves; 0 where the divisor is 0.
fn remainder(left: u64, right: u64) -> u64
    ensures { result ≡ remainder left right }
{
    if right == 0 { 0 } else { left % right }
}

/// A number of 32 bits: that number, or the greatest of 32 bits.
pub(crate) fn at_most_32_bits(number: u64) -> u32
    ensures { result ≡ at_most_32_bits number }
{
    if number < 4_294_967_295 {
        number as u32
    } else {
        4_294_967_295
    }
}
