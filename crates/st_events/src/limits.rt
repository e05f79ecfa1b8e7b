//! Where moments and numbers end.

/// The first moment that is refused, in milliseconds: 2^63.
///
/// Ours: docs/DECISIONS.md, Moments.
pub const MOMENT_LIMIT: u64 = 1 << 63;

/// The first number that no event gets: 2^63.
///
/// Ours: docs/DECISIONS.md, Numbers of events.
pub const NUMBER_LIMIT: u64 = 1 << 63;
