//! The running time-outs of one machine. It knows nothing of any clock: moments are handed in.
#![tactic(auto)]

mod due;
mod entry;
mod key;
mod moment;
mod order;
mod running;
mod timeouts;
mod zeros;

pub use due::Due;
pub use running::Running;
pub use st_events::{PlainList, Timer};
pub use timeouts::Timeouts;
