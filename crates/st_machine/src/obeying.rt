//! What the words of a line ask for.

use crate::page::Page;
use crate::word::Word;
use crate::{Session, Shelf};
use st_answers::{Command, Entry};
use st_events::{MOMENT_LIMIT, Reason};
use st_journal::Source;
use std::alloc::AllocError;

/// Says whether there is no word left. One that is left is told.
pub(crate) fn is_end(words: &[Word<'_>], page: &mut Page) -> bool {
    match words.first() {
        None => true,
        Some(word) => {
            page.fault_of("", word.text(), " is one word too many");
            false
        }
    }
}

/// The one number that words are, where it is below a limit. Else it is told what is wanted.
fn one_number(words: &[Word<'_>], limit: u64, wanted: &str, page: &mut Page) -> Option<u64> {
    let (first, rest) = match words.split_first() {
        Some((first, rest)) => (first.plain(), rest),
        None => ("", words),
    };
    match first.parse::<u64>() {
        Ok(number) if number < limit => is_end(rest, page).then_some(number),
        _ => {
            page.fault(wanted);
            None
        }
    }
}

impl Session {
    /// Does what words ask for.
    pub(crate) fn obey(
        &mut self,
        shelf: &mut impl Shelf,
        words: &[Word<'_>],
        page: &mut Page,
    ) -> Result<(), AllocError> {
        let Some((first, rest)) = words.split_first() else {
            return Ok(());
        };
        match first.plain() {
            "new" => self.start(shelf, rest, page),
            "at" => self.go_to(rest, page),
            word => match word.strip_suffix(':') {
                Some(name) => self.address(Some(name), rest, page),
                None => self.address(None, words, page),
            },
        }
    }

    /// Time passes to the moment that words say.
    fn go_to(&mut self, words: &[Word<'_>], page: &mut Page) -> Result<(), AllocError> {
        if self.has_clock {
            page.fault("a moment is the clock's here");
            return Ok(());
        }
        let wanted = "a moment is wanted: a number below 9223372036854775808";
        match one_number(words, MOMENT_LIMIT, wanted, page) {
            Some(moment) => self.pass_to(moment, page),
            None => Ok(()),
        }
    }

    /// Does what words ask of the machine of a name.
    fn address(
        &mut self,
        name: Option<&str>,
        words: &[Word<'_>],
        page: &mut Page,
    ) -> Result<(), AllocError> {
        let Some((verb, rest)) = words.split_first() else {
            page.fault("call, cast, info or stop is wanted");
            return Ok(());
        };
        match verb.plain() {
            "call" => self.say(name, Entry::Call, rest, page),
            "cast" => self.say(name, Entry::Cast, rest, page),
            "info" => self.say(name, Entry::Info, rest, page),
            "stop" => self.stop(name, rest, page),
            word => {
                let there = r#"; there are "new", "call", "cast", "info", "stop", "at""#;
                page.fault_of("no ", word, there);
                Ok(())
            }
        }
    }

    /// The machine of a name is told an event.
    fn say(
        &mut self,
        name: Option<&str>,
        entry: Entry,
        words: &[Word<'_>],
        page: &mut Page,
    ) -> Result<(), AllocError> {
        let Some(place) = self.world.addressed(name, page) else {
            return Ok(());
        };
        let Some(signal) = self.world.signal(place, words, page) else {
            return Ok(());
        };
        self.told.insert(place)?;
        if self.has_stopped(place, page) {
            return Ok(());
        }
        self.world.post(place, Source::Port(1), entry, signal)?;
        self.note(place)
    }

    /// The machine of a name is stopped.
    fn stop(
        &mut self,
        name: Option<&str>,
        words: &[Word<'_>],
        page: &mut Page,
    ) -> Result<(), AllocError> {
        let Some(place) = self.world.addressed(name, page) else {
            return Ok(());
        };
        let wanted = "a reason is wanted: a number below 4294967296";
        let Some(reason) = one_number(words, 1 << 32, wanted, page) else {
            return Ok(());
        };
        let reason = Reason::try_from(reason).or(Err(AllocError))?;
        self.told.insert(place)?;
        if self.has_stopped(place, page) {
            return Ok(());
        }
        self.world
            .tell(place, Command::Stop(reason), Command::Stop(reason))?;
        self.collect(place, page)?;
        self.note(place)
    }

    /// Says whether the machine at a place has stopped, so that it takes nothing. That is told.
    fn has_stopped(&self, place: usize, page: &mut Page) -> bool {
        let Some(by) = self.world.speaker(place) else {
            return true;
        };
        let has_stopped = by.machine.core.ended().is_some();
        if has_stopped {
            page.begin_fault();
            page.put(by.name);
            page.put(" has stopped");
            page.end_fault();
        }
        has_stopped
    }
}
