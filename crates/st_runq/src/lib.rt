//! Run queues of tokens: a local one for each worker, from which the others steal, and a shared one.
//! Each is first in first out, over the work-stealing queues of `crossbeam_deque`, and has one end that puts.
//! It knows nothing of machines, and nothing of who serves a token.
#![tactic(auto)]

mod inlet;
mod lane;
mod law;
mod put_refused;
mod seats;
mod seen;
mod shared;
mod steps;
mod thief;

pub use inlet::Inlet;
pub use lane::Lane;
pub use law::taken_was_put;
pub use put_refused::PutRefused;
pub use seats::Seats;
pub use shared::Shared;
pub use st_events::Token;
pub use thief::Thief;
