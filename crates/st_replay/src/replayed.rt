//! How a replay ends.

/// How a replay of entries on a machine ended.
///
/// Ours: docs/DECISIONS.md, Journals.
#[derive(Clone, Copy, Debug, PartialEq, Eq)]
pub enum Replayed {
    /// The machine answers each entry as it says, and stands behind the last.
    Same,
    /// The machine answers so many entries in front as they say, and the next one otherwise. It stands behind that one.
    Differs(usize),
    /// The machine answers so many entries in front as they say, and stands behind these: then memory was wanting. So the
    /// others can be replayed on.
    NoMemory(usize),
}
