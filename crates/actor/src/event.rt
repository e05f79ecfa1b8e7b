//! What comes by the channel.

ghost use Rattle.std.specs.Prelude.{◌≡◌};

use st_core::Entry;

/// An event for a machine: how it is posted, and its content.
///
/// Ours: docs/DECISIONS.md, Actors.
#[derive(Clone, Copy, Debug, PartialEq, Eq, Drop)]
pub struct Event<C> {
    /// How it is posted. The reply to a call stays in the machine until it is collected there, which is after `serve`: whoever
    /// wants an answer before has it sent as a message.
    pub entry: Entry,
    /// What it says.
    pub content: C,
}

impl<C> Event<C> {
    /// An event that is posted so, with this content.
    ///
    /// Ours: docs/DECISIONS.md, Actors.
    pub fn new(entry: Entry, content: C) -> Event<C>
        ensures { result ≡ record { entry = entry; content = content } }
    {
        Event { entry, content }
    }
}
