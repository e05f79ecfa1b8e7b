//! What a line of the input brings about.

use st_core::Entry;

/// What a line brings about.
#[derive(Drop)]
pub enum Step<C> {
    /// Nothing but that the moment is told.
    Nothing,
    /// The next machine starts.
    Start,
    /// The machine is told this.
    Post(Entry, C),
    /// The line is no command.
    Unknown,
}
