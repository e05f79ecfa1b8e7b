//! What a machine can be told.

use crate::Entry;
use st_events::{Reason, Tag};

/// One command of a run: a call of the machine with what it takes.
///
/// Ours: docs/DECISIONS.md, Runs.
#[derive(Debug, PartialEq, Eq, Drop)]
pub enum Command<C> {
    /// `Core::post`.
    Post(Entry, C),
    /// `Core::tick`, at a moment in milliseconds.
    Tick(u64),
    /// `Core::turn`, at a moment in milliseconds.
    Turn(u64),
    /// `Core::reply`.
    Reply(Tag, C),
    /// `Core::collect`.
    Collect(Tag),
    /// `Core::stop`.
    Stop(Reason),
    /// `Core::take_out`.
    TakeOut,
}
