//! What asking about gathered requests shows.
use st_client::{Checked, Reason};
use st_door::DoorContent;
use std::alloc::AllocError;

/// What asking about the requests of a collection shows, with the label of the request that is taken out.
#[derive(Copy, Debug, PartialEq, Eq)]
pub enum Shown {
    NoRequest,
    NoReply,
    Response(DoorContent, char),
    Stopped(Reason, char),
    Gone(char),
}

impl Clone for Shown {
    fn clone(&self) -> Result<Shown, AllocError> {
        Ok(*self)
    }
}

impl Shown {
    /// What a check shows.
    pub fn of(checked: Checked<DoorContent, char>) -> Shown {
        match checked {
            Checked::NoRequest => Shown::NoRequest,
            Checked::NoReply => Shown::NoReply,
            Checked::Response(content, label) => Shown::Response(content, label),
            Checked::Stopped(reason, label) => Shown::Stopped(reason, label),
            Checked::Gone(label) => Shown::Gone(label),
        }
    }
}
