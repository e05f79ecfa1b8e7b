//! Why a machine is served no more.

use st_core::Reason;

/// Why a machine is served no more.
///
/// Ours: docs/DECISIONS.md, Actors.
#[derive(Clone, Copy, Debug, PartialEq, Eq)]
pub enum Served {
    /// It has ended, for this reason and with this last word. What waits in the channel is still there.
    Ended(Reason, u32),
    /// Nobody sends any more, and what was sent is handled. The machine runs, and time-outs of it may run.
    Left,
}
