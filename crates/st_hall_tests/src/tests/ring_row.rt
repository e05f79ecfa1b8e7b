//! Rows of a test: what is done with a hall of machines that send to each other, and what comes of it.
use st_hall::{MachineId, Reason, Refusal, Token};
use std::alloc::AllocError;

/// What is done with a hall of machines that send, or with one of them. Where a token is left out, it is the one that was
/// issued last to the machine of the port.
#[derive(Copy)]
pub enum Act {
    /// A machine that sends to the first id is started, and gets the second one.
    Starts(MachineId, MachineId),
    /// A port of the machine of an id is opened, and used from now on.
    Opens(MachineId),
    /// 1 is posted to the port's machine, which rests.
    Posts,
    /// The machine of a token has a turn at a moment. Whether its token comes back, and which other token was woken.
    Turns(Option<Token>, u64, bool, Option<Token>),
    /// The same, where one allocation may be refused.
    Serves(Option<Token>, bool, Option<Token>),
    /// The machine of a token is found, has its last turn, and no other by that token.
    Finds(Token),
    /// What is done with the machine of an id, which is to end.
    Ends(MachineId, Ending),
    /// The machine of an id is removed, or not.
    Removes(MachineId, Result<(), Refusal>),
    /// So many messages could not be delivered: those whose target had ended, and those whose target was not there.
    Loses(u64, u64),
}

impl Clone for Act {
    fn clone(&self) -> Result<Act, AllocError> {
        Ok(*self)
    }
}

/// What is done with a machine that is to end.
#[derive(Copy)]
pub enum Ending {
    /// It is stopped, and says its last word.
    Stops(Reason, u32),
    /// A message is taken out of it by the token that was issued last.
    TakesOut,
}

impl Clone for Ending {
    fn clone(&self) -> Result<Ending, AllocError> {
        Ok(*self)
    }
}

/// What is done, with a word for the test that fails there.
pub type Row = (&'static str, Act);
