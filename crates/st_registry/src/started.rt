//! What comes of a start under a registry.

use st_lock::{MachineId, Reason, Token};

/// What comes of a start.
///
/// Manual: `start_ret()`, `init_result()`.
#[derive(Clone, Copy, Debug, PartialEq, Eq)]
pub enum Started {
    /// There is a machine of this id. If it has work at once, it was issued this token, which the caller has.
    Running { id: MachineId, wake: Option<Token> },
    /// No machine: `init` answered that this start is to be ignored. The module is let go.
    Ignored,
    /// No machine: `init` stopped for this reason. The module is let go.
    Stopped(Reason),
}
