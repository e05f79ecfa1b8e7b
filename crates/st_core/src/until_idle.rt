//! Turns one after another, until there is nothing to handle.
ghost use Rattle.std.specs.Prelude.{◌≡◌};
ghost use Rattle.st_core.specs.Callbacks.{callbacks_of};
ghost use Rattle.st_core.specs.UntilIdle.{HasTurned, HasStopped, end_of};

use crate::{Core, Turns, TurnsEnd};
use st_events::Module;

impl<M: Module> Core<M> {
    /// Makes turns at a moment, in milliseconds, as long as there is an event to handle, but no more than
    /// `at_most`; and answers how many handled an event, and why no more were made. What each turn reports is
    /// let go: who wants to see it calls `turn`. Where there is nothing to handle, no turn is made, and
    /// nothing changes.
    ///
    /// A turn that is refused is the last one, and alone changed nothing: with `Moment` at 2^63 or later,
    /// with `Exhausted` where too few numbers are left, and with `NoMemory` where memory is wanted; after that
    /// the call may be made again.
    ///
    /// Ours: docs/DECISIONS.md, Runs; the manual's machine handles what waits by itself.
    pub fn turn_until_idle(&mut self, now: u64, at_most: u64) -> Turns
        ensures turns { HasTurned (callbacks_of M.Module M.State.eq) now self.old result self.new }
        ensures stopped { HasStopped at_most result self.new.machine }
    {
        let mut reported = 0;
        while reported < at_most && self.has_event() {
            if let Err(refusal) = self.turn(now) {
                return Turns {
                    reported,
                    end: TurnsEnd::Refused(refusal),
                };
            }
            reported += 1;
        }
        Turns {
            reported,
            end: self.turns_end(),
        }
    }

    /// Why no more turns are made of a machine that was not refused one.
    fn turns_end(&self) -> TurnsEnd
        ensures { result ≡ end_of self.now.machine }
    {
        if self.ended.is_some() {
            TurnsEnd::Ended
        } else if self.has_event() {
            TurnsEnd::AtMost
        } else {
            TurnsEnd::Idle
        }
    }
}
