//! One machine with its journal: whatever is done with the machine is written down.
//! It knows nothing of threads, names, run queues and workers.
#![tactic(auto)]

mod cell;
mod copying;
mod journal;
mod journaled;
mod laws;
mod look;
mod messages;
mod reading;
mod recording;

pub use cell::Cell;
pub use journal::Journal;
pub use laws::{
    a_cell_has_a_token_for_work, a_cell_is_accounted, a_cell_is_journaled,
    a_cell_is_the_replay_of_its_journal, a_journal_is_numbered_without_gaps,
    a_port_has_no_more_posts_than_its_count, a_port_that_is_not_open_has_no_posts,
};
pub use look::Look;
pub use st_core::{
    Answer, Collected, Command, Core, Entry, MachineId, Message, Module, PlainList, Reason,
    Refusal, Refused, Report, Snapshot, Tag, Turned,
};
pub use st_events::Token;
pub use st_journal::{JournalEntry, Post, Source};
pub use st_scheduled::{Next, Posted, Ticked};
