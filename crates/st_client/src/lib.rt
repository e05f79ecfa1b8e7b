//! What clients of machines do: they cast, send requests, call, reply, and gather what comes back.
#![tactic(auto)]

mod called;
mod calls;
mod checked;
mod collection;
mod request_id;
mod sends;
mod sent;

pub use called::Called;
pub use calls::{call, check, receive, reply};
pub use checked::Checked;
pub use collection::{Collection, check_any};
pub use request_id::RequestId;
pub use sends::{cast, info, send_request};
pub use sent::Sent;
pub use st_collection::Request;
pub use st_lock::{
    Collected, Entry, Machine, MachineId, Module, Port, Reason, Refusal, Refused, Tag, Token,
};
pub use st_wake::Wake;
