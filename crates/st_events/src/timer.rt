//! Which time-out is meant.

/// One of a machine's timers. Of each at most one time-out runs.
///
/// Manual: `timeout_event_type()`. Names are numbers here.
#[derive(Clone, Copy, Debug, PartialEq, Eq)]
pub enum Timer {
    /// That of the event: any event that is handled cancels it. Manual: `event_timeout()`.
    Event,
    /// That of the state: a state change cancels it. Manual: `state_timeout()`.
    State,
    /// One of this name: nothing but a setting of it cancels it. Where many run they are found by a hash whose seed is
    /// known, so a module takes no names from strangers. Manual: `generic_timeout()`.
    Named(u32),
}
