//! Reports as values that can be copied and compared.
use st_core::{Call, Calls, Decision, Done, Report, Tag, Timer};
use st_table::Place;
use std::alloc::AllocError;

/// What a start or a turn did. Of each list there is the first element.
#[derive(Copy, Debug, PartialEq, Eq)]
pub struct Did {
    pub event: Option<u64>,
    pub done: Done,
    /// The state that was entered, where one was.
    pub entered: Option<u32>,
    pub before: u32,
    pub after: u32,
    pub replied: Option<Tag>,
    pub inserted: Option<u64>,
    pub set: Option<(Timer, Decision)>,
    pub sent: Option<u64>,
    /// How many elements the longest of the lists has, beside the calls.
    pub longest: usize,
}

impl Clone for Did {
    fn clone(&self) -> Result<Did, AllocError> {
        Ok(*self)
    }
}

/// An event that is finished in the first state, and asked for nothing.
pub const NOTHING: Did = Did {
    event: None,
    done: Done::Finished,
    entered: None,
    before: 0,
    after: 0,
    replied: None,
    inserted: None,
    set: None,
    sent: None,
    longest: 0,
};

/// The state that a call entered, where it did.
fn entered_by(call: Option<&Call<Place>>) -> Option<u32> {
    match call {
        Some(Call::Enter { old: _, state }) => Some(state.number),
        _ => None,
    }
}

/// The state that was entered, by the first or the second call.
fn entered(calls: &Calls<Place>) -> Option<u32> {
    match calls.get(1) {
        None => entered_by(calls.get(0)),
        second => entered_by(second),
    }
}

/// How many elements the longest of a report's lists has, beside the calls.
fn longest(report: &Report<Place>) -> usize {
    let asked = report.replied.len().max(report.inserted.len());
    asked.max(report.set.len()).max(report.sent.len())
}

/// What a start or a turn did.
pub fn shown(report: &Report<Place>) -> Did {
    Did {
        event: report.event,
        done: report.done,
        entered: entered(&report.calls),
        before: report.before.number,
        after: report.after.number,
        replied: report.replied.get(0).copied(),
        inserted: report.inserted.get(0).copied(),
        set: report.set.get(0).copied(),
        sent: report.sent.get(0).copied(),
        longest: longest(report),
    }
}
