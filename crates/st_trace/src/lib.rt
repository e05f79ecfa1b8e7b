//! A journal as text.
//! It knows nothing of live machines: it is handed a journal.
#![tactic(auto)]

mod counting;
mod entries;
mod lines;
mod rest;
mod state_names;
mod totals;
mod tracing;

pub use counting::{summary, totals_in};
pub use entries::latest_after;
pub use lines::{entry_line, machine_line, summary_line};
pub use st_cell::{Journal, JournalEntry};
pub use state_names::StateNames;
pub use totals::Totals;
pub use tracing::trace_text;
