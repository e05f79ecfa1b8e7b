//! Whether a journal is what a module does, and else which entry is the first that differs.
//! It knows nothing of cells and threads: it is handed a machine and entries.
#![tactic(auto)]

mod comparing;
mod copying;
mod laws;
mod replayed;
mod replaying;

pub use laws::{a_journal_of_the_machine_is_replayed, a_replayed_journal_is_what_the_machine_does};
pub use replayed::Replayed;
pub use replaying::replay;
pub use st_cell::JournalEntry;
pub use st_core::{Core, Module};
