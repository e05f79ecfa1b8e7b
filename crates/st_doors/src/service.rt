//! What a door is served with.
use crate::DoorContent;
use st_events::Message;

/// What a door is served with while doors run until they rest.
#[derive(Drop)]
pub(crate) enum Service {
    /// A turn at a moment, in milliseconds.
    Turn(u64),
    /// Its first message is taken out.
    TakeOut,
    /// A message that was sent to it is posted.
    Deliver(Message<DoorContent>),
}
