//! Where a time-out stands in the order in which they are due.
ghost use Rattle.std.specs.Prelude.{◌≡◌};
ghost use Rattle.st_events.specs.Timers.{same_timer};
ghost use Rattle.st_timeouts.specs.Keys.{before};

use crate::moment::Moment;
use st_events::Timer;

/// Where a time-out stands in the order in which they are due: by its moment, and then by its number.
#[derive(Clone, Copy)]
pub(crate) struct Key {
    pub(crate) moment: Moment,
    pub(crate) number: u64,
    pub(crate) timer: Timer,
}

impl Key {
    /// Says whether it is due before another: earlier, or at the same moment with the lower number.
    pub(crate) fn is_before(&self, other: &Key) -> bool
        ensures { result ≡ before self.now other.now }
    {
        let moment = self.moment.milliseconds();
        let others = other.moment.milliseconds();
        moment < others || (moment == others && self.number < other.number)
    }

    /// Says whether it is that of a timer.
    pub(crate) fn is_for(&self, timer: Timer) -> bool
        ensures { result ≡ same_timer timer self.now.timer }
    {
        timer == self.timer
    }
}
