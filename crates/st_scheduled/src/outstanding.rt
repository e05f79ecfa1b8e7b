//! A token that was issued.

/// A machine's outstanding token: the licence to serve it, which was issued and not yet retired.
///
/// Ours: docs/DECISIONS.md, Tokens.
#[derive(Clone, Copy, Debug, PartialEq, Eq)]
pub struct Outstanding {
    /// Its wake number: the machine's count of commands when it was issued.
    pub wake: u64,
    /// Whether callers have it; else it stands in a run queue or in a worker's hand.
    pub with_callers: bool,
}
