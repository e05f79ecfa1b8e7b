//! One machine under one lock, with its journal or without one: threads share it, and each caller posts through a port of its own.
//! It knows nothing of names, run queues and workers.
#![tactic(auto)]

mod bounded_port;
mod claim;
mod cutting;
mod held;
mod machine;
mod opened;
mod port;
mod readers;
mod unposted;
mod vacant_machine;

pub use machine::Machine;
pub use port::Port;
pub use st_cell::{
    Answer, Cell, Collected, Command, Core, Entry, Journal, JournalEntry, Look, MachineId, Message,
    Module, Next, PlainList, Post, Posted, Reason, Refusal, Refused, Report, Snapshot, Source, Tag,
    Ticked, Token, Turned,
};
pub use st_lock_inner::Service;
pub use unposted::Unposted;
pub use vacant_machine::VacantMachine;
