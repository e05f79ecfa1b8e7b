//! A journal as JSON lines. It knows nothing of live machines: it is handed entries.
#![tactic(auto)]

mod content_json;
mod entries;
mod events;
mod forms;
mod laws;
mod lines;
mod reports;
mod writer;

pub use content_json::ContentJson;
pub use laws::an_entry_is_as_plain_as_its_contents;
pub use lines::{entry_json, entry_json_line};
pub use serde_json::Value;
pub use st_cell::JournalEntry;
pub use st_trace::StateNames;
