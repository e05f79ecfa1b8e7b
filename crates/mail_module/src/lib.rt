//! The module of a mailbox with a line protocol, to be copied: another crate runs it.
#![tactic(auto)]

mod answer;
mod command;
mod content;
mod fault;
mod mail;
mod mailbox;
mod phase;
mod session;
mod take;

pub use answer::Answer;
pub use command::Command;
pub use content::Content;
pub use fault::Fault;
pub use mail::Mail;
pub use mailbox::Mailbox;
pub use phase::Phase;
pub use session::Session;
pub use take::Take;
