//! When a time-out is due.

/// When a running time-out is due.
///
/// Manual: `event_timeout()`, `state_timeout()`, `generic_timeout()`, on a time of zero.
#[derive(Clone, Copy, Debug, PartialEq, Eq)]
pub enum Due {
    /// At once, behind the events that were received.
    Zero,
    /// At a moment, in milliseconds.
    At(u64),
}
