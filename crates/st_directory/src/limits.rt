//! How much a directory takes.

/// The most values that a directory may have.
///
/// Ours: docs/DECISIONS.md, Directories.
pub const MOST: usize = 65_536;

/// The most bytes that a name may have. It has one at least.
///
/// Ours: docs/DECISIONS.md, Directories.
pub const LONGEST_NAME: usize = 64;
