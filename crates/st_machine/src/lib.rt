//! Machines that are described in texts, run over lines of events in memory.
//! It knows nothing of files, clocks and streams: texts, moments and lines are handed in.
#![tactic(auto)]

mod book;
mod cases;
mod contents;
mod delivering;
mod expected;
mod finishing;
mod format;
mod given;
mod letter;
mod looking;
mod machine;
mod naming;
mod obeying;
mod output;
mod page;
mod passing;
mod reading;
mod running;
mod session;
mod settling;
mod shelf;
mod speaker;
mod starting;
mod telling;
mod tested;
mod texts;
mod trial;
mod viewing;
mod watched;
mod word;
mod world;

pub use cases::test_text;
pub use format::Format;
pub use output::Output;
pub use running::{Opened, open_text, run_text};
pub use session::{LINE_LIMIT, Session, TURN_LIMIT};
pub use shelf::Shelf;
pub use st_chart::Chart;
pub use st_chart_views::{Drawing, schema};
pub use tested::Tested;
pub use viewing::{check_text, draw_text, format_text};
