//! A machine and the moment at which it is due.
ghost use Rattle.std.specs.Prelude.{◌≡◌};
ghost use Rattle.st_due.specs.Machines.{before};

use st_events::MachineId;

/// A machine, and the moment at which its next time-out is due, in milliseconds.
///
/// Ours: docs/DECISIONS.md, Due machines.
#[derive(Clone, Copy, Debug, PartialEq, Eq)]
pub struct DueMachine {
    /// The moment.
    pub moment: u64,
    /// The machine.
    pub machine: MachineId,
}

impl DueMachine {
    /// Says whether it comes before another: it is due earlier, or at the same moment and has the lower slot, or that
    /// too is the same and it has the lower serial.
    pub(crate) fn is_before(&self, other: &DueMachine) -> bool
        ensures { result ≡ before self.now other.now }
    {
        if self.moment != other.moment {
            return self.moment < other.moment;
        }
        if self.machine.slot != other.machine.slot {
            return self.machine.slot < other.machine.slot;
        }
        self.machine.serial < other.machine.serial
    }
}
