//! A machine of a session.

use crate::watched::Watched;
use st_answers::{Answer, Command, Entry, Report, Turned};
use st_core::Core;
use st_events::{Module, Refusal, Tag};
use st_journal::{JournalEntry, Source};
use st_table::{Place, Signal};
use std::alloc::{AllocError, Global};
use std::collections::BTreeSet;

/// A machine of a session.
#[derive(Drop)]
pub(crate) struct Machine {
    pub(crate) core: Box<Core<Watched>>,
    /// The place of the description that it runs.
    pub(crate) book: usize,
    /// The moment at which it started.
    pub(crate) from: u64,
    /// What it was started with, as it stood in the line.
    pub(crate) arguments: Vec<String>,
    /// The calls to it that are open, by their numbers.
    pub(crate) open: BTreeSet<u64>,
    /// What it was told, with its answers: all of it, or the last alone.
    pub(crate) entries: Vec<JournalEntry<Place, Signal>>,
    /// The first number that events got of each line of events that led to some, with the line's number; where that is asked
    /// for.
    pub(crate) lines: Vec<(u64, u64)>,
    /// The first number of which no line is known.
    pub(crate) unlined: u64,
}

/// Says whether an answer refuses a turn or a tick for want of memory.
fn wants_memory(answer: &Answer<Place, Signal>) -> bool {
    let refusal = match answer {
        Answer::Turn(Err(refusal)) => refusal,
        Answer::Tick(Err(refusal)) => refusal,
        _ => return false,
    };
    matches!(refusal, Refusal::NoMemory)
}

impl Machine {
    /// Tells the machine a command, of which a copy is handed in too, and keeps it with the answer: behind the earlier ones,
    /// or alone. Where a turn or a tick finds no memory, it says so.
    pub(crate) fn tell(
        &mut self,
        keeps: bool,
        source: Source,
        command: Command<Signal>,
        copy: Command<Signal>,
    ) -> Result<(), AllocError> {
        if !keeps {
            self.entries.clear();
        }
        self.entries.reserve(1)?;
        let number = (self.entries.len() as u64).saturating_add(1);
        let answer = self.core.step(command);
        let fails = wants_memory(&answer);
        JournalEntry::write(&mut self.entries, number, source, copy, answer);
        if fails { Err(AllocError) } else { Ok(()) }
    }

    /// Posts an event to the machine, which has not ended.
    pub(crate) fn post(
        &mut self,
        alloc: Global,
        keeps: bool,
        source: Source,
        entry: Entry,
        signal: Signal,
    ) -> Result<(), AllocError> {
        let copy = self.core.module().copy_content(alloc, &signal)?;
        let command = Command::Post(entry, signal);
        self.tell(keeps, source, command, Command::Post(entry, copy))?;
        let Some(Answer::Post(Ok(number))) = self.answer() else {
            return Err(AllocError);
        };
        let number = *number;
        if let Entry::Call = entry {
            self.open.insert(number)?;
        }
        Ok(())
    }

    /// Notes that the numbers which were given out since the last note came of this line of events.
    pub(crate) fn number_line(&mut self, line: u64) -> Result<(), AllocError> {
        let next = self.core.next_number();
        if self.unlined < next {
            self.lines.push((self.unlined, line))?;
            self.unlined = next;
        }
        Ok(())
    }

    /// The line of events that an event of this number came of, where it is known.
    pub(crate) fn line_of(&self, number: u64) -> Option<u64> {
        let mut found = None;
        for (first, line) in self.lines.as_slice() {
            if *first <= number {
                found = Some(*line);
            }
        }
        found
    }

    /// The answer to the last command.
    pub(crate) fn answer(&self) -> Option<&Answer<Place, Signal>> {
        let entry = self.entries.last()?;
        Some(&entry.answer)
    }

    /// What the last command did, where that was a turn.
    pub(crate) fn report(&self) -> Option<&Report<Place>> {
        match self.answer()? {
            Answer::Turn(Ok(Turned::Reported(report))) => Some(report),
            _ => None,
        }
    }

    /// The number of a call that is open no more: the one at a place among those that the last turn answered, or any once
    /// the machine has ended.
    fn closed_call(&mut self, place: usize) -> Option<u64> {
        if self.core.ended().is_some() {
            return self.open.pop_first();
        }
        let number = self.report()?.replied.get(place)?.request;
        self.open.remove(&number);
        Some(number)
    }

    /// The calls that the last turn answered, and all that were open once the machine has ended. They are open no more.
    pub(crate) fn closed_calls(&mut self, alloc: Global) -> Result<Vec<Tag>, AllocError> {
        let mut tags = Vec::new(alloc);
        for place in 0..usize::MAX {
            let Some(number) = self.closed_call(place) else {
                break;
            };
            tags.push(self.core.tag(number))?;
        }
        Ok(tags)
    }
}
