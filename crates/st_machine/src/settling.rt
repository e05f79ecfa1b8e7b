//! Machines settle: they do what they have to do, until there is nothing left.

use crate::Session;
use crate::page::Page;
use crate::world::machine_in;
use st_answers::{Command, Entry};
use st_journal::Source;
use std::alloc::AllocError;

impl Session {
    /// The machines do what they have to do, in the order of their places: each message goes out, and then there is a turn.
    /// It ends where the line has made as many turns as it may.
    pub(crate) fn settle(&mut self, page: &mut Page) -> Result<(), AllocError> {
        for _ in 0..u64::MAX {
            if self.left == 0 {
                break;
            }
            let Some(place) = self.busy.pop_first() else {
                break;
            };
            self.serve(place, page)?;
            self.note(place)?;
        }
        Ok(())
    }

    /// The machine at a place does one thing: a message goes out, or else it makes a turn.
    fn serve(&mut self, place: usize, page: &mut Page) -> Result<(), AllocError> {
        match self.world.machine(place) {
            Some(machine) if machine.core.has_message() => self.deliver(place, page),
            Some(_) => self.turn(place, page),
            None => Ok(()),
        }
    }

    /// Notes whether the machine at a place has something to do, and when its next time-out is due.
    pub(crate) fn note(&mut self, place: usize) -> Result<(), AllocError> {
        let Some(machine) = self.world.machine(place) else {
            return Ok(());
        };
        if machine.core.is_ready() {
            self.busy.insert(place)?;
        }
        let id = machine.core.id();
        match machine.core.next_due() {
            Some(moment) => {
                self.due.reserve(1)?;
                self.due.note(id, moment);
            }
            None => self.due.forget(id),
        }
        Ok(())
    }

    /// The first message of the machine at a place goes to whom it is sent.
    fn deliver(&mut self, place: usize, page: &mut Page) -> Result<(), AllocError> {
        self.world.tell(place, Command::TakeOut, Command::TakeOut)?;
        let Some(letter) = self.world.letter(place, page)? else {
            return Ok(());
        };
        let source = Source::Message(letter.sender, letter.number);
        let receiver = letter.receiver;
        let to = match self.world.machine(receiver) {
            Some(machine) => machine.book,
            None => return Ok(()),
        };
        let signal = self.world.translated(letter.book, to, letter.signal)?;
        self.world.post(receiver, source, Entry::Info, signal)?;
        self.note(receiver)
    }

    /// The machine at a place makes a turn.
    fn turn(&mut self, place: usize, page: &mut Page) -> Result<(), AllocError> {
        self.left = self.left.saturating_sub(1);
        self.told.insert(place)?;
        let moment = self.moment;
        self.world
            .tell(place, Command::Turn(moment), Command::Turn(moment))?;
        if let Some(by) = self.world.speaker(place) {
            by.tell_turn(moment, page);
        }
        self.collect(place, page)
    }

    /// What was answered to calls of the machine at a place is collected, and told.
    pub(crate) fn collect(&mut self, place: usize, page: &mut Page) -> Result<(), AllocError> {
        let Some(machine) = machine_in(&mut self.world.machines, place) else {
            return Ok(());
        };
        let tags = machine.closed_calls(self.world.alloc)?;
        for tag in tags.as_slice() {
            self.world
                .tell(place, Command::Collect(*tag), Command::Collect(*tag))?;
            if let Some(by) = self.world.speaker(place) {
                by.tell_collected(tag.request, page);
            }
        }
        Ok(())
    }
}
