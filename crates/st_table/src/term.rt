//! One step of a computation.

use crate::{Operand, Operator};

/// One step of a computation: what is done with the number so far and a further one.
#[derive(Drop)]
pub struct Term {
    /// What is done.
    pub operator: Operator,
    /// With what. A value that is no number counts as 0.
    pub operand: Operand,
}
