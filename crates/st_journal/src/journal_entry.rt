//! An entry of a journal.
ghost use Rattle.std.specs.Prelude.{◌≡◌, ◌<◌, ◌∷◌, [], ◌++◌, length, vec_capacity};
ghost use Rattle.std.specs.Option.{option_to_list};
ghost use Rattle.st_journal.specs.Journal.{numbers_of, posted_in};

use crate::Source;
use st_answers::{Answer, Command};

/// One command that a machine took, with what it answered.
///
/// Ours: docs/DECISIONS.md, Journals.
#[derive(Debug, PartialEq, Eq, Drop)]
pub struct JournalEntry<S, C> {
    /// Its number: entries are numbered from 1 on, without gaps.
    pub number: u64,
    /// Where it came from: an event that was posted through a port, a message that was delivered, or else a caller.
    pub source: Source,
    /// The command, with the moment, in milliseconds, or the content that it was given.
    pub command: Command<C>,
    /// What the machine answered.
    pub answer: Answer<S, C>,
}

impl<S: Drop, C: Drop> JournalEntry<S, C> {
    /// Writes an entry behind those of a journal, which has a place for it. It takes no memory.
    ///
    /// Ours: docs/DECISIONS.md, Journals.
    pub fn write(
        journal: &mut Vec<JournalEntry<S, C>>,
        number: u64,
        source: Source,
        command: Command<C>,
        answer: Answer<S, C>,
    )
        requires { length journal.old.items < vec_capacity journal.old }
        ensures written { journal.new.items ≡ journal.old.items ++ record { number = number; source = source; command = command; answer = answer } ∷ [] }
        ensures places { vec_capacity journal.new ≡ vec_capacity journal.old }
    {
        journal.push_reserved(JournalEntry {
            number,
            source,
            command,
            answer,
        });
    }
}

impl<S, C> JournalEntry<S, C> {
    /// The number of the event that a port posted by it; `None` where it is no post of that port.
    ///
    /// Ours: docs/DECISIONS.md, Journals.
    pub fn posted_by(&self, port: u64) -> Option<u64>
        ensures { option_to_list result ≡ numbers_of (posted_in port self.now) }
    {
        match (&self.command, &self.answer) {
            (Command::Post(_, _), Answer::Post(Ok(number))) if self.source.is_port(port) => {
                Some(*number)
            }
            _ => None,
        }
    }
}
