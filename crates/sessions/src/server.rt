//! A server: one machine at a time.

mod machine;
mod step;
mod textual;

use crate::line::{Line, read_line};
use crate::log::add;
use machine::{let_time_pass, post, tell_messages};
use st_core::{Core, Entry, Reason, Refusal};
use std::alloc::Global;
pub use step::Step;
pub use textual::Textual;

/// A server: one machine of a module at a time.
#[derive(Drop)]
pub struct Server<M: Textual> {
    alloc: Global,
    /// The moment that was told last.
    now: u64,
    /// How many machines have started.
    count: u32,
    /// The machine, while there is one.
    core: Option<Box<Core<M>>>,
}

impl<M: Textual> Server<M> {
    /// A server without a machine, at moment 0.
    pub fn new(alloc: Global) -> Server<M> {
        Server {
            alloc,
            now: 0,
            count: 0,
            core: None,
        }
    }

    /// Takes a line of the input, and answers what it brings about, in lines.
    pub fn take_line(&mut self, text: &str) -> Result<String, Refusal> {
        let line = read_line(self.alloc, text)?;
        let mut log = String::new(self.alloc);
        self.obey(&line, &mut log)?;
        Ok(log)
    }

    /// Does what a line brings about, at its moment.
    fn obey(&mut self, line: &Line<'_>, log: &mut String) -> Result<(), Refusal> {
        self.pass(line.moment.unwrap_or(self.now), log)?;
        let step = M::step_of(&line.words);
        self.echo(line.text, &step, log)?;
        self.step(step, log)?;
        self.part(log)
    }

    /// Lets time pass to a moment; one before the latest counts as the latest.
    fn pass(&mut self, moment: u64, log: &mut String) -> Result<(), Refusal> {
        self.now = self.now.max(moment);
        if let Some(core) = &mut self.core {
            let_time_pass(core, self.now, self.alloc, log)?;
        }
        self.part(log)
    }

    /// Writes a line of the input down, if it says more than the moment.
    fn echo(&self, text: &str, step: &Step<M::Content>, log: &mut String) -> Result<(), Refusal> {
        match step {
            Step::Nothing => Ok(()),
            Step::Post(Entry::Call, _) => self.note(M::CALL, text, log),
            _ => self.note("--", text, log),
        }
    }

    /// Does what a line brings about.
    fn step(&mut self, step: Step<M::Content>, log: &mut String) -> Result<(), Refusal> {
        match step {
            Step::Nothing => Ok(()),
            Step::Start => self.start(log),
            Step::Post(entry, content) => self.post(entry, content, log),
            Step::Unknown => self.note("--", "no command", log),
        }
    }

    /// The next machine starts, at the moment. While there is one, a second has to wait.
    fn start(&mut self, log: &mut String) -> Result<(), Refusal> {
        if self.core.is_some() {
            return self.note("--", "not possible", log);
        }
        self.count = self.count.saturating_add(1);
        self.core = M::start(self.alloc, self.count, self.now)?;
        self.tell_messages(log)
    }

    /// Writes down what the machine's start said.
    fn tell_messages(&mut self, log: &mut String) -> Result<(), Refusal> {
        if let Some(core) = &mut self.core {
            tell_messages(core, self.alloc, log)?;
        }
        Ok(())
    }

    /// Tells the machine something. Without one there is nobody to be told.
    fn post(&mut self, entry: Entry, content: M::Content, log: &mut String) -> Result<(), Refusal> {
        match &mut self.core {
            Some(core) => post(core, entry, content, self.alloc, log),
            None => self.note("--", "not possible", log),
        }
    }

    /// Lets a machine go that has ended, and writes its last word down.
    fn part(&mut self, log: &mut String) -> Result<(), Refusal> {
        let alloc = self.alloc;
        let Some((latest, reason, word)) = self.last_word() else {
            return Ok(());
        };
        add(
            log,
            format!(in alloc; "{latest} -- ended for the reason {reason}, with the word {word}\n"),
        )?;
        self.core = None;
        Ok(())
    }

    /// Of a machine that has ended the moment, the reason and its last word.
    fn last_word(&self) -> Option<(u64, Reason, u32)> {
        let core = self.core.as_ref()?;
        let (reason, word) = core.ended()?;
        Some((core.latest(), reason, word))
    }

    /// Writes down what happens, behind a mark.
    fn note(&self, mark: &str, text: &str, log: &mut String) -> Result<(), Refusal> {
        let (alloc, now) = (self.alloc, self.now);
        add(log, format!(in alloc; "{now} {mark} {text}\n"))?;
        Ok(())
    }
}
