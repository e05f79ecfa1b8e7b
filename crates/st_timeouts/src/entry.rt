//! One time-out as it is kept.
ghost use Rattle.std.specs.Prelude.{◌≡◌, true, IfOk};
ghost use Rattle.st_timeouts.specs.Entries.{running};

use crate::{Due, Running};
use st_events::{CopyContent, Timer};
use st_timer_map::Mark;
use std::alloc::{AllocError, Global};

/// What is kept of the time-out of a timer that runs, and whether its expiry was handed out.
#[derive(Drop)]
pub(crate) struct Entry<C> {
    pub(crate) number: u64,
    pub(crate) due: Due,
    pub(crate) content: C,
    pub(crate) expired: bool,
}

impl<C> Mark for Entry<C> {
    type Row = (Timer, u64, Due);

    ghost row_of = { λ timer entry. (timer, entry.number, entry.due) };

    ghost marked = { λ entry. record entry { expired = true } };

    fn row(&self, timer: Timer) -> (Timer, u64, Due) {
        (timer, self.number, self.due)
    }

    fn mark(&mut self) {
        self.expired = true;
    }
}

impl<C> Entry<C> {
    /// A copy of the time-out of its timer; a copier copies the content. It may find no memory.
    pub(crate) fn copy<K: CopyContent<C>>(
        &self,
        timer: Timer,
        alloc: Global,
        copier: &K,
    ) -> Result<Running<C>, AllocError>
        ensures { IfOk result (λ copy. copy ≡ running timer self.now) }
    {
        let content = copier.copy_of(alloc, &self.content)?;
        Ok(Running {
            timer,
            number: self.number,
            due: self.due,
            content,
        })
    }
}
