//! One object that serves machines: a hall, the workers that serve it, and the ticker that makes its time-outs come. Whoever
//! starts a service starts machines and posts to them; tokens, ticks and journals are the service's own business.
//! It knows nothing of what a machine does.
#![tactic(auto)]

mod closing;
mod ground;
mod journals;
mod link;
mod observer;
mod options;
mod served_hall;
mod service;
mod service_port;
mod shut;
mod shut_down;
mod shutting;
mod slices;
mod spawned;
mod unspawned;

pub use journals::Journals;
pub use observer::{Nobody, Observer, report_of};
pub use options::Options;
pub use service::Service;
pub use service_port::ServicePort;
pub use shut_down::ShutDown;
pub use slices::Slices;
pub use spawned::Spawned;
pub use st_client::{Called, RequestId, check, reply};
pub use st_hall::{Hall, Machine, MachineId, Module, Reason, Refusal, Refused, Undelivered};
pub use st_lock::{Answer, Command, JournalEntry, Report, Unposted};
pub use st_pool::{Message, Runtime};
pub use unspawned::Unspawned;
