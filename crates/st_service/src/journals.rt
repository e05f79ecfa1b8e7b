//! How much the machines of a service keep of what they did.

/// How much the machines of a service keep of what they did. Where an observer is told, they keep what it was not told yet,
/// whatever is asked for.
///
/// Ours: docs/DECISIONS.md, Machines without a journal, Services.
#[derive(Clone, Copy, Debug, PartialEq, Eq)]
pub enum Journals {
    /// Nothing. A machine takes the least memory and time so.
    None,
    /// A journal, which is cut behind a machine's turns where it has more entries than this.
    AtMost(usize),
    /// All: journals are never cut.
    All,
}

impl Journals {
    /// Whether a journal is kept.
    pub(crate) fn are_kept(self) -> bool {
        !matches!(self, Journals::None)
    }

    /// Beyond how many entries a journal is cut, if it is.
    pub(crate) fn limit(self) -> Option<usize> {
        match self {
            Journals::AtMost(limit) => Some(limit),
            Journals::None | Journals::All => None,
        }
    }
}
