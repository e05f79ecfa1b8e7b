//! A worker: it takes a token and serves it, which is one turn of its machine, and carries what the turn leaves in its hand.
//! It knows nothing of threads, of what a turn does, and of a machine nothing but its token.
#![tactic(auto)]

mod found;
mod gate;
mod hand;
mod machines;
mod served;
mod serving;
mod worker;

pub use found::Source;
pub use gate::Gate;
pub use hand::Hand;
pub use machines::Machines;
pub use served::Served;
pub use serving::serve_one;
pub use st_events::{MachineId, Message, Token};
pub use worker::Worker;
