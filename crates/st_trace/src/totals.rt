//! What is counted in a journal.

/// How many entries of a journal are posts and turns, and how the turns ended.
///
/// Ours: docs/SCRIPTS.md, Traces.
#[derive(Clone, Copy, Debug, PartialEq, Eq)]
pub struct Totals {
    /// How many entries are posts.
    pub posts: usize,
    /// How many entries are turns.
    pub turns: usize,
    /// How many turns finished their event.
    pub finished: usize,
    /// How many turns put their event off.
    pub put_off: usize,
}
