//! Where an entry of a journal came from.
ghost use Rattle.std.specs.Prelude.{◌≡◌};
ghost use Rattle.st_journal.specs.Journal.{is_port};

use st_events::MachineId;

/// Where an entry of a journal came from.
///
/// Ours: docs/DECISIONS.md, Journals.
#[derive(Clone, Copy, Debug, PartialEq, Eq)]
pub enum Source {
    /// A call of the machine itself, and no port: also of whoever serves it.
    Caller,
    /// The port, by its number, through which the event was posted.
    Port(u64),
    /// The message that was delivered: its sender, and its number among those that its sender sent.
    Message(MachineId, u64),
}

impl Source {
    /// Says whether it is a port.
    ///
    /// Ours: docs/DECISIONS.md, Ports.
    pub fn is_port(&self, port: u64) -> bool
        ensures { result ≡ is_port port self.now }
    {
        match self {
            Source::Port(own) => port == *own,
            Source::Caller | Source::Message(_, _) => false,
        }
    }
}
