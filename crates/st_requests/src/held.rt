//! What is held for a request.

use st_events::Reason;

/// What is held for a request, without the reply.
///
/// Manual: `reply/2`; `call/2`, on a machine that dies before it replies.
#[derive(Clone, Copy, Debug, PartialEq, Eq)]
pub enum Held {
    /// No reply has come.
    Open,
    /// A reply, until it is collected.
    Reply,
    /// The reason for which the machine stopped, until it is collected.
    Stopped(Reason),
}
