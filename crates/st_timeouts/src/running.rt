//! A time-out that runs.

use crate::Due;
use st_events::Timer;

/// A time-out that runs.
///
/// Manual: `timeout_action()`.
#[derive(Debug, PartialEq, Eq, Drop)]
pub struct Running<C> {
    /// Its timer.
    pub timer: Timer,
    /// The number of its event, taken when it was set.
    pub number: u64,
    /// When it is due, in milliseconds.
    pub due: Due,
    /// The content of its event.
    pub content: C,
}
