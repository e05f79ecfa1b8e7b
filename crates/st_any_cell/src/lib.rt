//! One machine, whose journal is kept or not: where none is kept, it is a cell that is cut behind each of its calls, at no
//! cost.
//! It knows nothing of threads, names, run queues and workers.
#![tactic(auto)]

mod any_cell;
mod bare;
mod form;
mod reading;

pub use any_cell::{AnyCell, any_cell_is_journaled};
pub use st_cell::{
    Answer, Cell, Collected, Command, Core, Entry, Journal, JournalEntry, Look, MachineId, Message,
    Module, Next, PlainList, Post, Posted, Reason, Refusal, Refused, Report, Snapshot, Source, Tag,
    Ticked, Token, Turned,
};
