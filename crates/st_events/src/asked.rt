//! What is asked of one timer.

use crate::Time;

/// What is asked of one timer.
///
/// Manual: `timeout_action()`, `timeout_cancel_action()`, `timeout_update_action()`.
#[derive(Drop)]
pub enum Asked<C> {
    /// To be set for a time, or stopped by it; the content is that of the time-out's event.
    Set(Time, C),
    /// To be stopped.
    Cancel,
    /// To have another content where it runs, and else to be set for no time.
    Update(C),
}
