//! A pool of machines and their workers as one sequential object, one step at a time.
//! It knows nothing of real locks, run queues that steal, and threads.
#![tactic(auto)]

mod laws;
mod machines;
mod opening;
mod pool;
mod pool_world;
mod run_queues;
mod step;
mod token_queue;
mod transit;
mod worker;

pub use laws::{
    a_machine_has_one_message_in_transit, a_new_pool_carries_nothing, a_new_pool_is_balanced,
    a_play_is_each_machines_own_run, a_play_keeps_messages, a_play_keeps_pools_balanced,
    a_pool_carries_its_own, a_pool_is_balanced, no_machine_has_two_workers,
    no_ready_machine_is_stranded,
};
pub use pool_world::PoolWorld;
pub use st_core::{
    Collected, Command, Core, Entry, MachineId, Message, Module, PlainList, Reason, Refusal,
    Refused, Report, Tag,
};
pub use st_events::Token;
pub use st_scheduled::StepAnswer;
pub use step::Step;
