//! A pool: workers in threads, which sleep where there is nothing to serve, and a way in for tokens.
//! It knows nothing of what a turn does, and of a machine nothing but its token.
#![tactic(auto)]

mod injector;
mod pool;
mod pool_end;
mod pool_state;
mod runtime;
mod scheduler;
mod search;
mod sleeper;
mod work;

pub use pool::Pool;
pub use pool_end::PoolEnd;
pub use runtime::Runtime;
pub use scheduler::Scheduler;
pub use st_events::{MachineId, Message, Token};
pub use st_runq::PutRefused;
pub use st_wake::Wake;
pub use st_worker::{Gate, Hand, Machines, Worker, serve_one};
