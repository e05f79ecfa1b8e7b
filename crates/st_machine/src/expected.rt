//! A line that is expected.

/// A line that is expected, and where it stands in the cases.
#[derive(Clone, Copy)]
pub(crate) struct Expected<'a> {
    /// The number of its line, from 1 on.
    pub(crate) line: u64,
    /// The line.
    pub(crate) text: &'a [u8],
}
