//! What a registry or a hall answers.
use st_client::{MachineId, Refusal};
use std::alloc::AllocError;

/// What a call of a registry or a hall answers.
#[derive(Copy, Debug, PartialEq, Eq)]
pub enum Answer {
    Id(MachineId),
    /// The last word of a machine.
    Word(u32),
    Count(usize),
    Done,
    Refused(Refusal),
}

impl Clone for Answer {
    fn clone(&self) -> Result<Answer, AllocError> {
        Ok(*self)
    }
}

impl Answer {
    /// The answer of a call that finds an id.
    pub fn of_id(found: Result<MachineId, Refusal>) -> Answer {
        match found {
            Ok(id) => Answer::Id(id),
            Err(refusal) => Answer::Refused(refusal),
        }
    }

    /// The answer of a call that stops a machine.
    pub fn of_word(stopped: Result<u32, Refusal>) -> Answer {
        match stopped {
            Ok(word) => Answer::Word(word),
            Err(refusal) => Answer::Refused(refusal),
        }
    }

    /// The answer of a call that does something.
    pub fn of_done(outcome: Result<(), Refusal>) -> Answer {
        match outcome {
            Ok(()) => Answer::Done,
            Err(refusal) => Answer::Refused(refusal),
        }
    }
}
