//! Machines that stand in a table, by numbers, and the handle by which a program in another language holds it.
//! It knows nothing of what crosses to that language but the handle.
#![tactic(auto)]

mod calls;
mod described_calls;
mod handle;
mod hosted_calls;
mod lists;
mod machines;
mod moves;

pub use calls::{collect_at, post_at, remove_at, run_at, stop_at, take_out_at, tick_at};
pub use described_calls::{Begun, start_described};
pub use handle::Handle;
pub use hosted_calls::{reply_at, start_hosted, stop_hosted, turn_hosted};
pub use lists::Lists;
pub use machines::{Machines, id_of};
