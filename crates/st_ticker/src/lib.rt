//! Time-outs that come by themselves: a ticker tells the machines of a hall the moment when they are due, from a thread of
//! its own, and is the gate of the pool that serves them.
//! It knows nothing of what a time-out does.
#![tactic(auto)]

mod alarms;
mod clock;
mod next;
mod ticked_pool;
mod ticked_pool_end;
mod ticker;
mod ticker_end;
mod ticker_thread;
mod ticks;
mod visit;

pub use st_hall::{Hall, MachineId, Module, Refusal, Token};
pub use st_pool::{Gate, Machines, Pool, PoolEnd, Runtime, Wake};
pub use ticked_pool::TickedPool;
pub use ticked_pool_end::TickedPoolEnd;
pub use ticker::Ticker;
pub use ticker_end::TickerEnd;
pub use ticker_thread::TickerThread;
pub use ticks::Ticks;
