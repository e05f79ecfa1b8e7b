//! The script runner: bytes in, bytes out.
//! It knows nothing of threads.
#![tactic(auto)]

mod effect;
mod in_memory;
mod laws;
mod line;
mod lines;
mod mode;
mod printed_line;
mod run;
mod run_output;
mod script;
mod word_forms;

pub use effect::Effect;
pub use in_memory::run_in_memory;
pub use laws::each_mode_has_the_same_status;
pub use line::{LINE_LIMIT, Line, read_line};
pub use lines::{split_lines, without_return};
pub use mode::Mode;
pub use printed_line::printed;
pub use run::{is_fault, run_script};
pub use run_output::RunOutput;
pub use st_doors::{
    Action, Actions, Counted, Digits, Door, DoorContent, DoorData, DoorState, EnterAction,
    EnterActions, EnterOutcome, Failed, Failures, INPUT_LIMIT, Init, InputFault, Kind, MachineId,
    Module, Outcome, PlainList, PlainText, Reason, Refusal, Refused, Replies, ScriptFault, Sink,
    SmallList, Source, Tag, Time, Timer, code_length, ended_status, expired, read_input, removed,
    status, write_output,
};
