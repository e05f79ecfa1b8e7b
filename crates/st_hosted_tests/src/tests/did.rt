//! Reports as values that can be copied and compared.
use st_core::{Done, Report};
use st_events::{Decision, Tag, Timer};
use std::alloc::AllocError;

/// What a start or a turn did. Of each list there is the first element.
#[derive(Copy, Debug, PartialEq, Eq)]
pub struct Did {
    pub event: Option<u64>,
    pub done: Done,
    /// How many callbacks were made.
    pub calls: usize,
    pub after: u64,
    pub replied: Option<Tag>,
    pub inserted: Option<u64>,
    pub set: Option<(Timer, Decision)>,
}

impl Clone for Did {
    fn clone(&self) -> Result<Did, AllocError> {
        Ok(*self)
    }
}

/// One event that is finished in the state 0, by one callback, and asked for nothing.
pub const NOTHING: Did = Did {
    event: None,
    done: Done::Finished,
    calls: 1,
    after: 0,
    replied: None,
    inserted: None,
    set: None,
};

/// What a start or a turn did.
pub fn shown(report: &Report<u64>) -> Did {
    Did {
        event: report.event,
        done: report.done,
        calls: report.calls.len(),
        after: report.after,
        replied: report.replied.get(0).copied(),
        inserted: report.inserted.get(0).copied(),
        set: report.set.get(0).copied(),
    }
}
