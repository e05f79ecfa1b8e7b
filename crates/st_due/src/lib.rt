//! Machines by the moment at which their next time-out is due, the earliest first.
//! It knows nothing of any clock or thread: moments are handed in.
#![tactic(auto)]

mod contender;
mod due_machine;
mod due_queue;
mod tournament;

pub use due_machine::DueMachine;
pub use due_queue::DueQueue;
pub use st_events::MachineId;
