//! What comes of an event.
use st_client::{Collected, Reason, Refusal, Refused, Sent, Token};
use st_door::DoorContent;
use std::alloc::AllocError;

/// What comes of an event that a client posts to a door, or what is kept for its request.
#[derive(Copy, Debug, PartialEq, Eq)]
pub enum Came {
    /// It was posted, and nobody waits for a reply.
    Sent(Sent),
    /// No reply has come.
    Waiting,
    Reply(DoorContent),
    /// The door was stopped for this reason, and had not replied.
    Stopped(Reason),
    /// Nothing is kept.
    Gone,
    /// What is kept could not be handed out.
    Uncollected(Refusal),
    /// The event of a call has this number, and nobody waited, since this token could not be scheduled.
    Unscheduled(u64, Token),
}

impl Clone for Came {
    fn clone(&self) -> Result<Came, AllocError> {
        Ok(*self)
    }
}

impl Came {
    /// What comes of an event without a request.
    pub fn of_sent(sent: Result<Sent, Refused<DoorContent>>) -> Result<Came, Refused<DoorContent>> {
        match sent {
            Ok(sent) => Ok(Came::Sent(sent)),
            Err(refused) => Err(refused),
        }
    }

    /// What is kept for a request.
    pub fn of_kept(collected: Collected<DoorContent>) -> Came {
        match collected {
            Collected::Waiting => Came::Waiting,
            Collected::Reply(content) => Came::Reply(content),
            Collected::Stopped(reason) => Came::Stopped(reason),
            Collected::Gone => Came::Gone,
        }
    }
}
