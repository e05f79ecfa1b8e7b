//! Time passes.

use crate::Session;
use crate::page::Page;
use st_answers::Command;
use std::alloc::AllocError;

impl Session {
    /// Lets time pass to a moment: time-outs expire, each moment's together, and the machines settle before the next. It
    /// ends where the line has made as many turns as it may, at the moment to which it came.
    pub(crate) fn pass_to(&mut self, moment: u64, page: &mut Page) -> Result<(), AllocError> {
        self.settle(page)?;
        for _ in 0..u64::MAX {
            let Some(next) = self.next_within(moment) else {
                break;
            };
            self.moment = self.moment.max(next);
            self.expire()?;
            self.settle(page)?;
        }
        if self.busy.is_empty() {
            self.moment = self.moment.max(moment);
        }
        Ok(())
    }

    /// The next moment at which a time-out is due, up to this one, where the machines have settled.
    fn next_within(&self, moment: u64) -> Option<u64> {
        if !self.busy.is_empty() {
            return None;
        }
        let next = self.due.first()?;
        if next <= moment { Some(next) } else { None }
    }

    /// The time-outs expire that are due by now.
    fn expire(&mut self) -> Result<(), AllocError> {
        let moment = self.moment;
        for _ in 0..u64::MAX {
            let Some(due) = self.due.take(moment) else {
                break;
            };
            let place = due.machine.slot;
            self.world
                .tell(place, Command::Tick(moment), Command::Tick(moment))?;
            self.note(place)?;
        }
        Ok(())
    }
}
