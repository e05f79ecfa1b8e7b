//! How machines are made.
ghost use Rattle.std.specs.Prelude.{◌≡◌, IfOk, IfErr};
ghost use Rattle.st_events.specs.declared.refusal.Refusal.TheVariants.{NoMemory};
ghost use Rattle.st_lock.specs.Machines.{id_for};

use st_lock::{MachineId, Module, Refusal, VacantMachine};
use std::alloc::Global;

/// Where a machine's memory comes from, and whether it keeps its journal.
#[derive(Clone, Copy)]
pub(crate) struct Making {
    pub(crate) alloc: Global,
    pub(crate) keeps: bool,
}

impl Making {
    /// The memory for a machine of this id.
    pub(crate) fn vacant<M: Module>(&self, id: MachineId) -> Result<VacantMachine<M>, Refusal>
        ensures id { IfOk result (λ vacant. id_for vacant ≡ id) }

        ensures refusals { IfErr result (λ refusal. refusal ≡ NoMemory) }
    {
        if self.keeps {
            VacantMachine::new(self.alloc, id)
        } else {
            VacantMachine::unjournaled(self.alloc, id)
        }
    }
}
