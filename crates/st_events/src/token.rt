//! The licence to serve a machine once.
use crate::MachineId;

/// Says that a machine has work, and is its one licence to be served.
///
/// Ours: docs/DECISIONS.md, Tokens.
#[derive(Clone, Copy, Debug, PartialEq, Eq)]
pub struct Token {
    /// Which machine has work.
    pub machine: MachineId,
    /// The machine's count of commands when it became ready.
    pub wake: u64,
}
