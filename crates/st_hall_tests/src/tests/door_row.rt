//! Rows of a test: what a client does at a door, and what comes of it.
use super::came::Came;
use super::sending::Sending;
use super::shown::Shown;
use st_client::{MachineId, Reason, Tag, Token};
use st_door::DoorContent;
use std::alloc::AllocError;

/// What is left of an event's token.
#[derive(Copy)]
pub enum Left {
    /// None was issued, since one is outstanding.
    Outstanding,
    /// It was scheduled. A tray that found no memory for it is handed it again.
    Scheduled,
    /// It came back.
    Back(Token),
    /// It came back, whichever it is.
    SomeBack,
}

impl Clone for Left {
    fn clone(&self) -> Result<Left, AllocError> {
        Ok(*self)
    }
}

/// What is done with the door.
#[derive(Copy)]
pub enum Serving {
    /// The only token on the tray is taken, which is this one.
    Takes(Token),
    /// It is served by its token until that rests.
    Serves(Token),
    /// The request of the event of a number is replied to, that the code has so many digits. Whether that is taken.
    Replies(u64, usize, bool),
    /// It is stopped.
    Stops(Reason),
    /// From now on the door of an id is used.
    TurnsTo(MachineId),
}

impl Clone for Serving {
    fn clone(&self) -> Result<Serving, AllocError> {
        Ok(*self)
    }
}

/// What a client does.
#[derive(Copy)]
pub enum Act {
    /// An event is posted, but by a call. It has this number, and this is left of its token.
    Sends(Sending, DoorContent, u64, Left),
    /// A call for the length of the code comes to this.
    Calls(Came),
    /// This is kept for the request that was sent last.
    Checks(Came),
    /// The request that was sent last is gathered, with this label.
    Gathers(char),
    /// The requests that are gathered are asked about.
    Shows(Shown),
    /// They are listed by their tags, with their labels.
    Lists(&'static [(Tag, char)]),
    /// They are counted.
    Counts(usize),
    /// Something is done with the door.
    Door(Serving),
}

impl Clone for Act {
    fn clone(&self) -> Result<Act, AllocError> {
        Ok(*self)
    }
}

/// What is done, with a word for the test that fails there.
pub type Row = (&'static str, Act);
