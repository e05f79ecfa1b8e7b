//! What is done with two numbers.

/// What is done with a number and the next one. What would be below 0 is 0, and what would be above 2^64 - 1 is that.
#[derive(Clone, Copy)]
pub enum Operator {
    /// Their sum, or 2^64 - 1 where it is greater.
    Plus,
    /// Their difference, or 0 where the second is greater.
    Minus,
    /// Their product, or 2^64 - 1 where it is greater.
    Times,
    /// How often the second goes into the first; 0 where the second is 0.
    Over,
    /// What that leaves of the first; 0 where the second is 0.
    Remainder,
    /// The lesser.
    Least,
    /// The greater.
    Greatest,
}
