//! The example module, a door, and the doors of a script: each with its history, in the order in which they were registered.
//! It knows nothing of a script's lines, and nothing of threads.
#![tactic(auto)]

mod answers;
mod cells;
mod counted;
mod digits;
mod door;
mod door_cell;
mod door_content;
mod door_data;
mod door_state;
mod door_states;
mod door_table;
mod doors;
mod due_doors;
mod failed;
mod failures;
mod free_slots;
mod input;
mod late_doors;
mod numbers;
mod output;
mod past;
mod printing;
mod script_fault;
mod service;
mod sink;
mod source;
mod tracing;
mod until_idle;

pub use answers::{DoorAnswer, Said, let_go};
pub use counted::Counted;
pub use digits::Digits;
pub use door::Door;
pub use door_cell::DoorCell;
pub use door_content::DoorContent;
pub use door_data::DoorData;
pub use door_state::DoorState;
pub use failed::Failed;
pub use failures::Failures;
pub use free_slots::FreeSlots;
pub use input::{INPUT_LIMIT, InputFault, read_input};
pub use late_doors::LateDoors;
pub use output::write_output;
pub use printing::{code_length, ended_status, expired, removed, status};
pub use script_fault::ScriptFault;
pub use sink::Sink;
pub use source::Source;
pub use st_events::{
    Action, Actions, EnterAction, EnterActions, EnterOutcome, Init, Kind, MachineId, Module,
    Outcome, PlainList, PlainText, Reason, Refusal, Refused, Replies, SmallList, Tag, Time, Timer,
};
pub use until_idle::run_until_idle;
