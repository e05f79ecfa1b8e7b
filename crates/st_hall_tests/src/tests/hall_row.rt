//! Rows of a test: what is done with a hall, and what comes of it.
use super::answer::Answer;
use super::ask::Ask;
use st_hall::{MachineId, Refusal};
use std::alloc::AllocError;

/// What is done with a hall, or with one of its machines.
#[derive(Copy)]
pub enum Act {
    /// A call, and what it is to answer.
    Asks(Ask, Answer),
    /// The names are listed, with the ids that they name, in order.
    Names(&'static [(&'static str, MachineId)]),
    /// The ids are listed, by rising slot.
    Ids(&'static [MachineId]),
    /// A port of the machine of an id is opened, and used from now on.
    Opens(MachineId),
    /// An event that inserts one more is posted to the port's machine, which rests. It has this number, and another token is
    /// issued than the one before.
    Posts(u64),
    /// The token that was issued last is given a turn at the moment 5. Whether it comes back.
    Turns(bool),
    /// The machine of the token that was issued last is served by it at a moment. Whether the token comes back, and why
    /// nothing was done, if nothing was.
    Serves(u64, bool, Option<Refusal>),
    /// The machine of the port shows what its last turn reported: that it handled the event of this number and inserted so
    /// many.
    Shows(u64, usize),
}

impl Clone for Act {
    fn clone(&self) -> Result<Act, AllocError> {
        Ok(*self)
    }
}

/// What is done, with a word for the test that fails there.
pub type Row = (&'static str, Act);
