//! The requests to one machine that are open, and the replies that are kept until they are collected.
//! It knows nothing of who asks, and of how a reply comes about.
#![tactic(auto)]

mod collected;
mod held;
mod request;
mod request_state;
mod requests;

pub use collected::Collected;
pub use held::Held;
pub use request::Request;
pub use request_state::RequestState;
pub use requests::Requests;
pub use st_events::{Reason, Replies, Tag};
