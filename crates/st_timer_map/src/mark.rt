//! What can be kept by timer and listed.
ghost use Rattle.std.specs.Prelude.{◌≡◌};
ghost use Rattle.st_events.specs.declared.timer.Timer.{Timer};

use st_events::Timer;

/// A value that can be listed beside its timer, and be marked.
pub trait Mark {
    /// What is listed of it.
    type Row;

    ghost row_of: { Timer → Self → Self.Row };

    ghost marked: { Self → Self };

    /// Its row, where it is kept for this timer.
    fn row(&self, timer: Timer) -> Self::Row
        ensures { result ≡ row_of timer self.now };

    /// Marks it.
    fn mark(&mut self)
        ensures { self.new ≡ marked self.old };
}
