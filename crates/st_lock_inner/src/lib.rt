//! What lies under the lock of a machine that threads share: its cell, and the machine's endpoint on the counter of each port.
//! It knows nothing of locks and threads.
#![tactic(auto)]

mod inner;
mod service;

pub use inner::{Inner, PostOf, its_cell_is_journaled};
pub use service::Service;
