//! A token that a worker found.
use st_events::Token;

/// Where a worker has its token from.
///
/// Ours: docs/DECISIONS.md, Workers.
#[derive(Clone, Copy, PartialEq, Eq)]
pub enum Source {
    /// It had it already.
    Hand,
    /// Its own run queue.
    Own,
    /// The shared run queue.
    Shared,
    /// The run queue of another, which the thief of this place robs.
    Other(usize),
}

/// A token, and where it was taken.
#[derive(Drop)]
pub struct Found {
    pub token: Token,
    pub source: Source,
}
