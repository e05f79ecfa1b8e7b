//! One machine that workers serve: its count of commands, and its outstanding token.
//! It knows nothing of other machines, of run queues and of who holds the token.
#![tactic(auto)]

mod next;
mod outstanding;
mod posted;
mod scheduled_machine;
mod served;
mod step_answer;
mod telling;
mod ticked;

pub use next::Next;
pub use outstanding::Outstanding;
pub use posted::Posted;
pub use scheduled_machine::ScheduledMachine;
pub use served::Served;
pub use st_core::{
    Collected, Command, Core, Entry, MachineId, Message, Module, Reason, Refusal, Refused, Report,
    Tag,
};
pub use st_events::Token;
pub use step_answer::{AnswerOf, StepAnswer};
pub use telling::{ServedOf, content_of};
pub use ticked::Ticked;
