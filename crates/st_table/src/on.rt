//! Of which kind an event is to be.

/// Of which kind an event is to be. Manual: `event_type()`.
#[derive(Clone, Copy)]
pub enum On {
    /// Any kind.
    Any,
    /// A call.
    Call,
    /// A cast.
    Cast,
    /// An info.
    Info,
    /// What the machine itself inserted as internal.
    Internal,
    /// A time-out of any of the three kinds. Manual: `timeout_event_type()`.
    AnyTimeout,
    /// The event time-out. Manual: `event_timeout()`.
    EventTimeout,
    /// The state time-out. Manual: `state_timeout()`.
    StateTimeout,
    /// The time-out of this name. Manual: `generic_timeout()`.
    NamedTimeout(u32),
}
