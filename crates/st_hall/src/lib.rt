//! The machines that threads share: a registry under one lock, each of its machines under a lock of its own. A pool's
//! workers serve them; it knows nothing of these.
#![tactic(auto)]

mod copies;
mod found_machine;
mod hall;
mod machines;
mod outstanding;
mod served;
mod undelivered;

pub use found_machine::FoundMachine;
pub use hall::Hall;
pub use served::Served;
pub use st_pool::{Hand, Message};
pub use st_registry::{
    Machine, MachineId, Module, Port, Reason, Refusal, Refused, Registry, Started, Token,
};
pub use undelivered::Undelivered;
