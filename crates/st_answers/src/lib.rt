//! What a machine is told and what it answers, as plain values: commands, answers, and what a start or a turn reports.
//! It knows nothing of how a machine comes to them.
#![tactic(auto)]

mod answer;
mod call;
mod calls;
mod command;
mod done;
mod entry;
mod one_inline;
mod report;
mod turned;

pub use answer::Answer;
pub use call::Call;
pub use calls::Calls;
pub use command::Command;
pub use done::Done;
pub use entry::Entry;
pub use one_inline::OneInline;
pub use report::Report;
pub use turned::Turned;
