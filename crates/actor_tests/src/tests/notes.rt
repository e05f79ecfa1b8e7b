//! What an observer of a bell notes down.
ghost use Rattle.std.specs.Prelude.{◌≡◌, ◌+◌, ◌-◌, ◌^◌, min};

use super::bell::Bell;
use crate::{Tone, Wish};
use actor::{Core, Message, Observer, Report};
use std::alloc::Global;
use std::sync::Arc;
use std::sync::atomic::{AtomicU64, Ordering};

/// What was told of a bell.
#[derive(Drop)]
pub struct Notes {
    /// How many reports.
    pub reports: u64,
    /// Whether each report was of the event that was posted next.
    pub is_in_order: bool,
    /// How many messages.
    pub messages: u64,
    /// How often the bell stopped ringing, for whoever waits for it.
    pub hushed: Arc<AtomicU64, Global>,
}

impl Notes {
    /// Nothing was told yet.
    pub fn new(hushed: Arc<AtomicU64, Global>) -> Notes {
        Notes {
            reports: 0,
            is_in_order: true,
            messages: 0,
            hushed,
        }
    }
}

impl Observer<Bell> for Notes {
    ghost hears = { λ old report bell new. new.reports ≡ min (old.reports + 1) (2 ^ 64 - 1) };

    ghost takes = { λ old message new. new.reports ≡ old.reports };

    fn turned(&mut self, report: &Report<Tone>, core: &Core<Bell>) {
        self.reports = self.reports.saturating_add(1);
        let is_next = report.event == Some(self.reports) && core.state() == report.after;
        self.is_in_order = self.is_in_order && is_next;
        if report.before == Tone::Ringing && report.after == Tone::Quiet {
            self.hushed.fetch_add(1, Ordering::SeqCst);
        }
    }

    fn sent(&mut self, message: Message<Wish>)
        ensures { self.new.reports ≡ self.old.reports }
    {
        if message.content == Wish::Ring {
            self.messages = self.messages.saturating_add(1);
        }
    }
}
