//! The lists of a report.
ghost use Rattle.std.specs.Prelude.{◌≡◌, []};
ghost use Rattle.st_embedded.specs.Table.{lists_of};

use st_answers::Report;
use st_events::{Decision, PlainList, Tag, Timer};
use std::alloc::Global;

/// The lists of a report, which are kept until the next one.
///
/// Ours: docs/TRANSITIONS.md, A turn.
#[derive(Drop)]
pub struct Lists {
    /// The requests whose reply was taken.
    pub replied: PlainList<Tag>,
    /// The numbers of the events that were inserted.
    pub inserted: PlainList<u64>,
    /// The timers that were set, cancelled or updated.
    pub set: PlainList<(Timer, Decision)>,
    /// The numbers of the messages that were sent.
    pub sent: PlainList<u64>,
}

impl Lists {
    /// Lists of nothing. They take no memory.
    pub fn new(alloc: Global) -> Lists
        ensures { result ≡ record { replied = []; inserted = []; set = []; sent = [] } }
    {
        Lists {
            replied: PlainList::new(alloc),
            inserted: PlainList::new(alloc),
            set: PlainList::new(alloc),
            sent: PlainList::new(alloc),
        }
    }

    /// The lists of a report, the rest of which is dropped.
    pub fn of<S: Drop>(report: Report<S>) -> Lists
        ensures { result ≡ lists_of report }
    {
        let Report {
            replied,
            inserted,
            set,
            sent,
            ..
        } = report;
        Lists {
            replied,
            inserted,
            set,
            sent,
        }
    }
}
