//! How a machine starts.

use st_core::{Core, MachineId, Module, Refusal, Start};
use std::alloc::Global;

/// A value in a box. What owns a machine so is proved much sooner than what owns the machine itself.
fn boxed<T: Drop>(alloc: Global, value: T) -> Result<Option<Box<T>>, Refusal> {
    Ok(Some(Box::new(alloc, value)?))
}

/// Starts a machine at a moment. Where its module ignores the start or stops, there is none.
pub fn started<M: Module>(
    alloc: Global,
    module: M,
    id: MachineId,
    arg: &M::Arg,
    moment: u64,
) -> Result<Option<Box<Core<M>>>, Refusal> {
    match Core::start(alloc, module, id, arg, moment)? {
        Start::Running(core, report) => {
            drop(report);
            boxed(alloc, core)
        }
        Start::Ignored => Ok(None),
        Start::Stopped(_) => Ok(None),
    }
}
