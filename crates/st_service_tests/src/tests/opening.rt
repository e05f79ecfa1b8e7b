//! How a house of clerks opens.
use super::host::Host;
use super::reports::Reports;
use super::tally::Tally;
use st_service::{Journals, Options};
use std::alloc::Global;
use std::process::Abort;
use std::sync::Arc;

/// How a house of clerks opens: with these options, and with an observer that counts, where it is said what it is to count.
#[derive(Drop)]
pub struct Opening {
    pub options: Options,
    pub reports: Option<Reports>,
}

impl Opening {
    /// What the observer counts into, if it does.
    pub fn tally(&self, rt: &Host<impl Abort>, alloc: Global) -> Option<Arc<Tally, Global>> {
        if self.reports.is_none() {
            return None;
        }
        Some(Tally::shared(rt, alloc))
    }

    /// The observer has counted what it is to count, if it does.
    pub fn was_told(&self, rt: &impl Abort, tally: &Option<Arc<Tally, Global>>) {
        if let (Some(reports), Some(tally)) = (&self.reports, tally) {
            tally.has_counted(rt, reports);
        }
    }
}

/// As many events may wait as are tested, journals stay short, and shutting down makes so many turns.
pub const OPTIONS: Options = Options {
    waiting: 1_000,
    journals: Journals::AtMost(10),
    turns: 1_000,
};

/// With these options, and nobody is told.
pub static PLAIN: Opening = Opening {
    options: OPTIONS,
    reports: None,
};
