//! How long a time-out lasts.

/// The length of a time-out, in milliseconds, or none: `Infinity` stops the timer.
///
/// Manual: `event_timeout()`, `generic_timeout()`, `state_timeout()`.
#[derive(Clone, Copy, Debug, PartialEq, Eq)]
pub enum Time {
    /// After so many milliseconds; of none at once, before events that were not received yet.
    After(u32),
    /// Never: the timer is stopped.
    Infinity,
}
