//! What is read of any machine.
use st_core::Reason;

/// What is read of a machine: its state, how many events wait, when a time-out is due, why it ended, and whether it has
/// work.
#[derive(Clone, Copy, PartialEq)]
pub struct Reading {
    pub state: u32,
    pub waiting: usize,
    pub due: Option<u64>,
    pub ended: Option<(Reason, u32)>,
    pub is_ready: bool,
}
