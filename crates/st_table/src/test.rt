//! One comparison of a guard.

use crate::{Expression, Relation};

/// One comparison of a guard.
#[derive(Drop)]
pub struct Test {
    /// The first value.
    pub left: Expression,
    /// How the two are to compare.
    pub relation: Relation,
    /// The second value.
    pub right: Expression,
}
