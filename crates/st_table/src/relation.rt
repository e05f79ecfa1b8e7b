//! How two values are compared.

/// How two values are compared.
#[derive(Clone, Copy)]
pub enum Relation {
    /// They are one value.
    Equal,
    /// They are two.
    Different,
    /// The number of the first is less than that of the second. A value that is no number counts as 0.
    Less,
    /// The number of the first is no greater than that of the second. A value that is no number counts as 0.
    AtMost,
}
