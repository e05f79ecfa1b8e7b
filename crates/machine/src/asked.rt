//! What came of a command line.

use st_machine::Session;

/// What came of a command line.
#[derive(Drop)]
pub(crate) enum Asked {
    /// All is done, with this status.
    Done(u8),
    /// A session waits for live events.
    Live(Box<Session>),
}
