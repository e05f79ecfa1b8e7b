//! What a caller sees of a machine.

use st_events::{PlainList, Reason};

/// What is seen of a machine through a port.
///
/// Ours: docs/DECISIONS.md, Looks; manual: `sys:get_state/1`.
#[derive(Debug, PartialEq, Eq, Drop)]
pub struct Look<S, D> {
    /// Its state.
    pub state: S,
    /// A copy of its data.
    pub held: D,
    /// How many accepted events wait.
    pub waiting: usize,
    /// The number of the journal's last entry; before the first one, 0.
    pub entries: u64,
    /// How many events the port has posted.
    pub mine: u64,
    /// The numbers of those of its events whose entries are in the journal, in order.
    pub numbers: PlainList<u64>,
    /// The reason and the last word, once it has ended.
    pub ended: Option<(Reason, u32)>,
}
