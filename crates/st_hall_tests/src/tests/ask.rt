//! What is asked of a registry or a hall.
use super::answer::Answer;
use st_client::{MachineId, Reason};
use std::alloc::AllocError;

/// One call of a registry or a hall.
#[derive(Copy)]
pub enum Ask {
    /// A machine is started under a name, or under none. It runs, and has no work.
    Start(Option<&'static str>),
    /// The id of a name.
    Whereis(&'static str),
    /// The machine of an id, which says its own id.
    Find(MachineId),
    /// A name is let go.
    Unregister(&'static str),
    /// The machine of an id is removed, where it has ended.
    Remove(MachineId),
    /// The machine of an id is stopped for a reason, and says its last word.
    Stop(MachineId, Reason),
    /// How many machines there are.
    Len,
}

impl Clone for Ask {
    fn clone(&self) -> Result<Ask, AllocError> {
        Ok(*self)
    }
}

/// A call, and what it is to answer, with a word for the test that fails there.
pub type Row = (&'static str, Ask, Answer);
