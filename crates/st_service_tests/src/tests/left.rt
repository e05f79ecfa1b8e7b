//! What a service is to leave that is shut down.
use super::host::{holds, same};
use st_pool::Message;
use st_service::{MachineId, ShutDown, Undelivered};
use std::process::Abort;

/// What a service is to leave that is shut down: each count from the least to the greatest.
#[derive(Drop)]
pub struct Left {
    pub turns: (u64, u64),
    pub stopped: (u64, u64),
    pub unstopped: (u64, u64),
    pub events: (u64, u64),
    /// The events that wait and the messages that are on their way, together.
    pub unhandled: (u64, u64),
    /// The messages that could not be delivered, where that is asked.
    pub undelivered: Option<Undelivered>,
}

/// Any count.
const ANY: (u64, u64) = (0, u64::MAX);

/// Whatever a service may leave.
pub const ANYTHING: Left = Left {
    turns: ANY,
    stopped: ANY,
    unstopped: ANY,
    events: ANY,
    unhandled: ANY,
    undelivered: None,
};

/// A count is neither less nor greater than is wanted.
fn is_within(rt: &impl Abort, word: &str, found: u64, (least, greatest): (u64, u64)) {
    assert!(rt;
        least <= found && found <= greatest,
        "{word}: {found} in place of {least} to {greatest}"
    );
}

/// Each message that is on its way is this one.
fn is_each<C: PartialEq>(
    rt: &impl Abort,
    messages: &Vec<Message<C>>,
    target: MachineId,
    content: &C,
) {
    for message in messages.iter() {
        same(rt, "to whom it is sent", &message.target, &target);
        holds(rt, "what is sent", message.content == *content);
    }
}

/// A service that was shut down has left what it is to leave; and each message that is on its way is this one, where one is
/// given.
pub fn is_left<C: PartialEq + Drop>(
    rt: &impl Abort,
    end: ShutDown<C>,
    left: &Left,
    message: Option<(MachineId, C)>,
) {
    let messages = end.messages.len() as u64;
    let unhandled = end.events.saturating_add(messages);
    is_within(rt, "turns", end.turns, left.turns);
    is_within(rt, "stopped", end.stopped, left.stopped);
    is_within(rt, "unstopped", end.unstopped, left.unstopped);
    is_within(rt, "events", end.events, left.events);
    is_within(rt, "events and messages", unhandled, left.unhandled);
    if let Some(undelivered) = left.undelivered {
        same(rt, "what is lost", &end.undelivered, &undelivered);
    }
    if let Some((target, content)) = message {
        is_each(rt, &end.messages, target, &content);
    }
    drop(end);
}
