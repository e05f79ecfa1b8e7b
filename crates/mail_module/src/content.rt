//! What events, replies and messages carry.

use crate::{Answer, Command};

/// The content of events, of replies and of messages.
///
/// Manual: `event_content()`.
#[derive(Clone, Copy, PartialEq, Eq)]
pub enum Content {
    /// A line of the client, which comes as a call. Manual: `call/2`.
    Asked(Command),
    /// A line to the client: a reply, or a message where there is no call. Manual: `reply_action()`.
    Said(Answer),
    /// The mail that is to be taken is there, which comes as an info. Manual: `info`.
    Done,
    /// That of time-outs. Manual: `timeout_action()`.
    TimeOut,
}
