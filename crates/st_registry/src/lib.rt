//! Machines by id and by name: an id names at most one machine, for good.
#![tactic(auto)]

mod making;
mod registry;
mod started;
mod starts;

pub use registry::{Registry, a_registry_is_in_order};
pub use st_lock::{Core, Machine, MachineId, Module, Port, Reason, Refusal, Refused, Tag, Token};
pub use started::Started;
