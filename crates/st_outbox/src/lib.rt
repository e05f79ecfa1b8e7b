//! The messages that one machine has sent and that were not taken out yet.
//! It knows nothing of when a machine sends, and of who takes a message out and delivers it.
#![tactic(auto)]

mod outbox;
mod outgoing;

pub use outbox::Outbox;
pub use outgoing::Outgoing;
pub use st_events::{MachineId, Message};
