//! A message on its way.

use st_events::MachineId;
use st_table::Signal;

/// A message on its way to a machine that can take it.
#[derive(Drop)]
pub(crate) struct Letter {
    pub(crate) sender: MachineId,
    /// Its number among those that its sender sent.
    pub(crate) number: u64,
    /// The place of the description that its sender runs.
    pub(crate) book: usize,
    /// The place of the machine that gets it.
    pub(crate) receiver: usize,
    /// What it says, in its sender's words.
    pub(crate) signal: Signal,
}
