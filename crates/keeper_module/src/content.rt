//! What events, replies and messages carry.

/// The content of events, of replies and of messages. A client is a number.
///
/// Manual: `event_content()`.
#[derive(Clone, Copy, PartialEq, Eq)]
pub enum Content {
    /// This client wants the connection, by a call. Manual: `call/2`.
    CheckOut(u32),
    /// The client has the connection of this number: a reply. Manual: `reply_action()`.
    CheckedOut(u32),
    /// This client gives it back, by a cast. Manual: `cast/2`.
    CheckIn(u32),
    /// This client wants it for longer, by a cast. Manual: `cast/2`.
    Renew(u32),
    /// How often was it checked out? A call. Manual: `call/2`.
    Count,
    /// So often: a reply. Manual: `reply_action()`.
    Counted(u32),
    /// The owner is to open a socket: a message. Ours: what leaves a machine is a message.
    Connect,
    /// The owner is to close the socket, or to let the attempt be: a message. Ours: what leaves a machine is a message.
    Close,
    /// This client has kept it for too long and has lost it: a message. Ours: what leaves a machine is a message.
    Reclaimed(u32),
    /// The socket is open. Manual: `info`.
    Connected,
    /// The attempt takes longer, and goes on. Manual: `info`.
    Progress,
    /// The attempt has failed. Manual: `info`.
    Failed,
    /// The other side has closed the socket. Manual: `info`.
    Lost,
    /// That of time-outs. Manual: `timeout_action()`.
    TimeOut,
}
