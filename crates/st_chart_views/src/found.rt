//! The warnings that were found.

use crate::part::Subject;
use st_chart::{Fault, Mark, PlainList, Vocabulary};
use std::alloc::{AllocError, Global};

/// The warnings that were found.
#[derive(Drop)]
pub(crate) struct Found<'a> {
    /// From where texts get their memory.
    pub(crate) alloc: Global,
    /// The names.
    pub(crate) names: &'a Vocabulary,
    /// The warnings.
    pub(crate) faults: Vec<Fault>,
}

/// Adds of what something is said.
fn push_subject(
    text: &mut String,
    names: &Vocabulary,
    subject: Subject,
    key: &str,
) -> Result<(), AllocError> {
    match subject {
        Subject::Start => text.push_str("a rule of the start"),
        Subject::Entry(number) => {
            let state = names.states.name(number);
            write!(text, "an entry of \"{state}\"")
        }
        Subject::Rule(number) => {
            let state = names.states.name(number);
            write!(text, "the rule \"{key}\" of \"{state}\"")
        }
        Subject::AnyRule => write!(text, "the rule \"{key}\" of any state"),
        Subject::State(number) => {
            let state = names.states.name(number);
            write!(text, "the state \"{state}\"")
        }
    }
}

impl<'a> Found<'a> {
    /// Adds a warning, if it is known where it stands.
    pub(crate) fn warn(
        &mut self,
        subject: Subject,
        mark: Option<&Mark>,
        said: &str,
    ) -> Result<(), AllocError> {
        let Some(mark) = mark else {
            return Ok(());
        };
        let mut text = String::new(self.alloc);
        push_subject(&mut text, self.names, subject, mark.key.as_str())?;
        text.push_str(said)?;
        self.faults.push(Fault {
            line: mark.line,
            column: mark.column,
            text,
        })?;
        Ok(())
    }

    /// The warnings in the order of their places.
    pub(crate) fn sorted(self) -> Result<PlainList<Fault>, AllocError> {
        let Found { mut faults, .. } = self;
        faults.sort_by_key(|fault| (fault.line, fault.column))?;
        Ok(PlainList::from(faults))
    }
}
