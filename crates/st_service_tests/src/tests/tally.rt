//! An observer that counts, or is not told.
use super::clerk::Clerk;
use super::host::{Host, same};
use super::reports::Reports;
use crate::{Order, Window};
use st_service::{JournalEntry, MachineId, Observer, report_of};
use std::alloc::Global;
use std::process::Abort;
use std::sync::Arc;
use std::sync::atomic::{AtomicU64, Ordering};

/// How many reports were told, and the sum of the numbers of their events; and how many entries in all.
#[derive(Drop)]
pub struct Tally {
    pub reports: AtomicU64,
    pub numbers: AtomicU64,
    pub entries: AtomicU64,
}

/// Who counts into a tally, or is not told.
#[derive(Drop)]
pub struct Counting {
    pub tally: Option<Arc<Tally, Global>>,
}

impl Counting {
    /// Who counts into a tally, if one is given, and else is not told.
    pub fn of(rt: &impl Abort, tally: &Option<Arc<Tally, Global>>) -> Counting {
        let tally = match tally {
            Some(tally) => Some(Arc::try_clone(tally).expect(rt, "an owner")),
            None => None,
        };
        Counting { tally }
    }
}

/// Each event from the first on was reported once: this is the sum of the numbers of so many.
fn is_of_each(rt: &impl Abort, reports: u64, numbers: u64) {
    let reports = reports.min(1_000_000);
    same(rt, "each is told", &numbers, &(reports * (reports + 1) / 2));
}

impl Tally {
    /// Nothing was counted yet.
    pub fn shared(rt: &Host<impl Abort>, alloc: Global) -> Arc<Tally, Global> {
        let tally = Tally {
            reports: AtomicU64::new(0),
            numbers: AtomicU64::new(0),
            entries: AtomicU64::new(0),
        };
        rt.shares(alloc, tally)
    }

    /// It has counted what it is to have.
    pub fn has_counted(&self, rt: &impl Abort, wanted: &Reports) {
        let reports = self.reports.load(Ordering::SeqCst);
        let numbers = self.numbers.load(Ordering::SeqCst);
        let entries = self.entries.load(Ordering::SeqCst);
        match wanted {
            Reports::Are(wanted_reports, wanted_numbers, wanted_entries) => {
                same(rt, "reports", &reports, wanted_reports);
                same(rt, "each event's", &numbers, wanted_numbers);
                same(rt, "entries", &entries, wanted_entries);
            }
            Reports::OfEach => is_of_each(rt, reports, numbers),
        }
    }

    /// Counts an entry.
    fn count(&self, entry: &JournalEntry<Window, Order>) {
        self.entries.fetch_add(1, Ordering::SeqCst);
        if let Some(report) = report_of(entry) {
            self.reports.fetch_add(1, Ordering::SeqCst);
            let number = report.event.unwrap_or(0);
            self.numbers.fetch_add(number, Ordering::SeqCst);
        }
    }
}

impl Observer<Clerk> for Counting {
    fn observes(&self) -> bool {
        self.tally.is_some()
    }

    fn observe(&self, _machine: MachineId, entry: &JournalEntry<Window, Order>) {
        if let Some(tally) = &self.tally {
            tally.count(entry);
        }
    }
}
