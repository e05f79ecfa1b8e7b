//! What is wrong in a description.

/// What is wrong in a description, and where.
#[derive(Drop)]
pub struct Fault {
    /// The line, from 1 on.
    pub line: usize,
    /// The character in the line, from 1 on.
    pub column: usize,
    /// What stands there, and what could: `no state "opened"; there are "open", "locked"`.
    pub text: String,
}
