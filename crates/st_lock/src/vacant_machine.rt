//! A vacant machine, which threads will share.
ghost use Rattle.std.specs.Prelude.{◌≡◌, IfOk, IfErr};
ghost use Rattle.std.specs.Arc.{arc_value};
ghost use Rattle.st_events.specs.declared.refusal.Refusal.TheVariants.{NoMemory};
ghost use Rattle.st_scheduled.specs.ScheduledMachine.{token_of};
ghost use Rattle.st_cell.specs.Cell.{cell_at_first};
ghost use Rattle.st_lock.specs.Machines.{id_of, id_for};

use crate::Machine;
use crate::machine::{InnerOf, boxed};
use st_cell::{Core, MachineId, Module, Refusal, Refused, Token};
use st_lock_inner::Inner;
use std::alloc::Global;
use std::sync::{Arc, Wait};

/// The memory for a machine of one id, for whoever has to know that there is some before the machine starts: at a refusal a
/// machine that has started gives its module back, but one that threads share has it under its lock.
///
/// Ours: docs/DECISIONS.md, Shared machines.
#[derive(Drop)]
pub struct VacantMachine<M: Module> {
    machine: Arc<Machine<M>>,
    // Whether the machine will keep its journal.
    keeps: bool,
}

/// The inner state of a machine that has just started, in a box. Where there is no memory, the machine comes back.
fn begun<M: Module>(
    alloc: Global,
    core: Core<M>,
    keeps: bool,
) -> Result<(InnerOf<M>, Option<Token>), Refused<Core<M>>>
    ensures token { IfOk result (λ begun. begun.1 ≡ token_of (cell_at_first core).scheduled) }

    ensures refusals { IfErr result (λ refused. refused.refusal ≡ NoMemory) }
    ensures returned { IfErr result (λ refused. refused.value ≡ core) }
{
    let (inner, token) = Inner::begun(alloc, core, keeps)?;
    let inner = boxed(alloc, inner)?;
    Ok((inner, token))
}

impl<M: Module> VacantMachine<M> {
    /// Gets the memory for a machine of this id, which will keep its journal.
    ///
    /// Refused with `NoMemory` where memory is wanted and there is none.
    ///
    /// Ours: docs/DECISIONS.md, Shared machines.
    pub fn new(alloc: Global, id: MachineId) -> Result<VacantMachine<M>, Refusal>
        ensures id { IfOk result (λ vacant. id_for vacant ≡ id) }

        ensures refusals { IfErr result (λ refusal. refusal ≡ NoMemory) }
    {
        VacantMachine::over(alloc, id, true)
    }

    /// Gets the memory for a machine of this id, which will keep no journal.
    ///
    /// Refused with `NoMemory` where memory is wanted and there is none.
    ///
    /// Ours: docs/DECISIONS.md, Machines without a journal.
    pub fn unjournaled(alloc: Global, id: MachineId) -> Result<VacantMachine<M>, Refusal>
        ensures id { IfOk result (λ vacant. id_for vacant ≡ id) }

        ensures refusals { IfErr result (λ refusal. refusal ≡ NoMemory) }
    {
        VacantMachine::over(alloc, id, false)
    }

    /// The memory for a machine of this id, which will keep its journal or keep none.
    fn over(alloc: Global, id: MachineId, keeps: bool) -> Result<VacantMachine<M>, Refusal>
        ensures id { IfOk result (λ vacant. id_for vacant ≡ id) }

        ensures refusals { IfErr result (λ refusal. refusal ≡ NoMemory) }
    {
        let machine = Machine::without_inner(alloc, id)?;
        match Arc::new(alloc, machine).ok() {
            Some(machine) => Ok(VacantMachine { machine, keeps }),
            None => Err(Refusal::NoMemory),
        }
    }

    /// Puts the machine of this id there, with an empty journal. If it has work, it is issued a token, whose wake number
    /// is 0.
    ///
    /// Refused with `NoMemory` where memory is wanted and there is none; then the machine comes back, as it was.
    ///
    /// Ours: docs/DECISIONS.md, Shared machines, Tokens.
    pub fn fill<R: Wait>(
        self,
        alloc: Global,
        rt: &R,
        core: Core<M>,
    ) -> Result<(Arc<Machine<M>>, Option<Token>), Refused<Core<M>>>
        requires { core.machine.id ≡ id_for self }
        ensures id { IfOk result (λ made. id_of (arc_value made.0) ≡ core.machine.id) }
        ensures token { IfOk result (λ made. made.1 ≡ token_of (cell_at_first core).scheduled) }

        ensures refusals { IfErr result (λ refused. refused.refusal ≡ NoMemory) }
        ensures returned { IfErr result (λ refused. refused.value ≡ core) }
    {
        let VacantMachine { machine, keeps } = self;
        match begun(alloc, core, keeps) {
            Ok((inner, token)) => {
                machine.put(rt, inner);
                Ok((machine, token))
            }
            Err(refused) => {
                drop(machine);
                Err(refused)
            }
        }
    }
}
