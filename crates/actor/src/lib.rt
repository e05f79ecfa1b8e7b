//! One machine that one thread owns: a bounded channel in front of it, time-outs by the clock, and an observer who is told
//! what it did. It is the form for one machine up to some dozens, each with a thread of its own.
//! It knows nothing of other machines, of locks, and of what a machine does.
#![tactic(auto)]

mod event;
mod events;
mod feed;
mod moment;
mod next;
mod observer;
mod served;
mod serving;
mod unserved;

pub use event::Event;
pub use events::{Events, Inlet, channel};
pub use observer::Observer;
pub use served::Served;
pub use serving::serve;
pub use st_core::{
    Core, Done, Entry, MachineId, Message, Module, Reason, Refusal, Refused, Report, Start, Tag,
};
pub use unserved::Unserved;
