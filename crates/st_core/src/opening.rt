//! How a machine is begun, whatever its `init` answers.

use st_events::MachineId;
use std::alloc::Global;

/// Whose machine is begun and where: its module, its id, the moment in milliseconds, and the number that its first event
/// gets.
#[derive(Drop)]
pub(crate) struct Opening<M> {
    pub(crate) alloc: Global,
    pub(crate) module: M,
    pub(crate) id: MachineId,
    pub(crate) now: u64,
    pub(crate) first: u64,
}
