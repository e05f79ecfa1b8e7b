//! The pending events of one machine: a list with a cursor, over chains of linked nodes. It knows nothing of events'
//! kinds, of states or of time.
#![tactic(auto)]

mod chain;
mod event_queue;

pub use event_queue::EventQueue;
