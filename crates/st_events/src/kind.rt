//! What kind of event it is.

use crate::{Tag, Timer};

/// The type of an event, which a callback is handed with the content.
///
/// Manual: `event_type()`.
#[derive(Clone, Copy, Debug, PartialEq, Eq)]
pub enum Kind {
    /// A call, whose request has this tag. Manual: `call/2`.
    Call(Tag),
    /// A cast. Manual: `cast/2`.
    Cast,
    /// Any other message. Manual: `info`.
    Info,
    /// The time-out of this timer. Manual: `timeout_event_type()`.
    Timeout(Timer),
    /// What only the machine itself inserts. Manual: `internal`.
    Internal,
}
