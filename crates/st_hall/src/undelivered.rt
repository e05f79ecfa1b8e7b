//! How many messages were lost.
ghost use Rattle.std.specs.Prelude.{◌≡◌};
ghost use Rattle.st_hall.specs.Undelivered.{none_lost, with_lost};

use st_registry::Refusal;

/// How many messages could not be delivered, by why. A count that is 2^64 - 1 stays there.
///
/// Ours: docs/DECISIONS.md, Messages.
#[derive(Clone, Copy, Debug, PartialEq, Eq)]
pub struct Undelivered {
    /// Those whose target had ended: their delivery was refused with `Stopped`.
    pub stopped: u64,
    /// Those whose target could take no event more: their delivery was refused with `Exhausted`.
    pub exhausted: u64,
    /// Those whose target was never there, or was removed: `NoSuchMachine`.
    pub missing: u64,
}

impl Undelivered {
    /// No message was lost.
    pub(crate) fn new() -> Undelivered
        ensures { result ≡ none_lost }
    {
        Undelivered {
            stopped: 0,
            exhausted: 0,
            missing: 0,
        }
    }

    /// A message more was lost, for this reason.
    pub(crate) fn count(&mut self, refusal: Refusal)
        ensures { self.new ≡ with_lost refusal self.old }
    {
        match refusal {
            Refusal::Stopped(_) => self.stopped = self.stopped.saturating_add(1),
            Refusal::Exhausted => self.exhausted = self.exhausted.saturating_add(1),
            Refusal::NoSuchMachine => self.missing = self.missing.saturating_add(1),
            _ => {}
        }
    }
}
