//! Why the program cannot go on.

use std::alloc::{AllocError, AllocFailed};

/// Why the program cannot go on.
#[derive(Drop)]
pub(crate) enum Failure {
    /// There is no memory.
    Memory,
    /// A file, or standard input, cannot be read: its name.
    Unread(String),
    /// A file, or standard output, cannot be written: its name.
    Unwritten(String),
    /// A file, or standard input, has more than may be read: its name.
    TooLong(String),
    /// The clock, or a thread, cannot be had.
    System,
}

impl From<AllocError> for Failure {
    fn from(_cause: AllocError) -> Failure {
        Failure::Memory
    }
}

impl<T: Drop> From<AllocFailed<T>> for Failure {
    fn from(_cause: AllocFailed<T>) -> Failure {
        Failure::Memory
    }
}
