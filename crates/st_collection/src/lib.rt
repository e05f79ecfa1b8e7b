//! Requests that were sent, with their labels, in the order in which they were added.
//! It knows nothing of what a request is asked of, and of who answers it.
#![tactic(auto)]

mod collection;
mod request;
mod sent;

pub use collection::Collection;
pub use request::Request;
pub use sent::Sent;
pub use st_events::{Refusal, Refused, Tag};
