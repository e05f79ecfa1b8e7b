//! The entries of a journal: each is a command that a machine took, with what it answered.
//! It knows nothing of the machine, and of who keeps the journal.
#![tactic(auto)]

mod journal_entry;
mod post;
mod source;

pub use journal_entry::JournalEntry;
pub use post::Post;
pub use source::Source;
pub use st_answers::{Answer, Command, Entry};
