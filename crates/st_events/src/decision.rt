//! What was asked of a timer, without contents.

use crate::Time;

/// What was asked of a timer, without the content.
///
/// Manual: `timeout_action()`, `timeout_cancel_action()`, `timeout_update_action()`.
#[derive(Clone, Copy, Debug, PartialEq, Eq)]
pub enum Decision {
    /// To be set for a time, or stopped by it.
    Set(Time),
    /// To be stopped.
    Cancel,
    /// To have another content.
    Update,
}
