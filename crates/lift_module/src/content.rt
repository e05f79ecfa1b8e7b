//! What events, replies and messages carry.

/// The content of events, of replies and of messages, of the cabin and of the door.
///
/// Manual: `event_content()`.
#[derive(Clone, Copy, Debug, PartialEq, Eq)]
pub enum Content {
    /// The cabin is wanted at this floor: a call, or the parking time-out. Manual: `call/2`.
    Go(u8),
    /// The cabin has arrived: a reply, or the time-out of a floor. Manual: `reply_action()`.
    Arrived,
    /// The cabin does not come: a reply. Manual: `reply_action()`.
    Failed,
    /// The door is to close: a message of the cabin. Ours: a word between two machines.
    Close,
    /// The door is to open: a message of the cabin. Ours: a word between two machines.
    OpenUp,
    /// The door is open: a message of the door. Ours: a word between two machines.
    Opened,
    /// The door is closed: a message of the door. Ours: a word between two machines.
    Closed,
    /// Something stands in the door. Manual: `info`.
    Blocked,
    /// The floor at which the cabin parks is this one. Manual: `timeout_update_action()`.
    Park(u8),
    /// The emergency stop. Manual: `cast/2`.
    Halt,
}
