//! Where a transition leads.

/// Where the transition on an event leads: its moment in milliseconds, the event's number, the state after it, whether
/// that is a change, and whether the same state is entered again.
#[derive(Clone, Copy)]
pub(crate) struct Course<S> {
    pub(crate) now: u64,
    pub(crate) number: u64,
    pub(crate) after: S,
    pub(crate) changed: bool,
    pub(crate) repeats: bool,
}
