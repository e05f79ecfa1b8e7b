//! A script whose doors are served by workers in threads: bytes in, the bytes of `run_script` out.
#![tactic(auto)]

mod clock;
mod door_hall;
mod moment_rule;
mod pooled_door;
mod pooled_doors;
mod pooled_script;
mod run;
mod runtime;

pub use run::run_pool;
pub use runtime::Runtime;
pub use st_door::{ScriptFault, Sink, Source};
