//! What one machine sends to another.

use crate::{MachineId, SmallList};

/// A message. Its sender and its number name it for good.
///
/// Ours: docs/DECISIONS.md, Messages.
#[derive(Debug, PartialEq, Eq, Drop)]
pub struct Message<C> {
    /// Who sent it.
    pub sender: MachineId,
    /// Its number among those that its sender sent, from 1 on.
    pub number: u64,
    /// To whom it is sent.
    pub target: MachineId,
    /// What it says.
    pub content: C,
}

/// What is to be sent to which machines, in order. Up to four take no memory.
///
/// Ours: docs/DECISIONS.md, Messages.
pub type Sends<C> = SmallList<(MachineId, C)>;
