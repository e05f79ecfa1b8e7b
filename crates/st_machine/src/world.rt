//! The machines of a session, and what they run.

use crate::book::Book;
use crate::machine::Machine;
use crate::page::Page;
use crate::speaker::Speaker;
use st_answers::{Command, Entry};
use st_chart::Names;
use st_events::MachineId;
use st_journal::Source;
use st_table::Signal;
use std::alloc::{AllocError, Global};

/// The machines of a session, and the descriptions that they run. A machine's place is that of its name among those that lines
/// have named so far; one that was named and not started has a place, and is not there.
#[derive(Drop)]
pub(crate) struct World {
    pub(crate) alloc: Global,
    /// Whether all is kept that machines are told.
    pub(crate) keeps: bool,
    /// The descriptions, the main one first.
    pub(crate) books: Vec<Book>,
    /// The descriptions' names, by their places.
    pub(crate) files: Names,
    /// The machines by their places.
    pub(crate) machines: Vec<Option<Machine>>,
    /// The place of the machine that was started last.
    pub(crate) last: Option<usize>,
    /// The machines' names, by their places.
    pub(crate) names: Names,
}

/// The machine at a place of these, to be told something.
pub(crate) fn machine_in(machines: &mut [Option<Machine>], place: usize) -> Option<&mut Machine> {
    match machines.get_mut(place) {
        Some(machine) => machine.as_mut(),
        None => None,
    }
}

impl World {
    /// The machine at a place, with the names for telling of it.
    pub(crate) fn speaker(&self, place: usize) -> Option<Speaker<'_>> {
        let machine = self.machine(place)?;
        let book = self.books.get(machine.book)?;
        let number = u32::try_from(place).ok()?;
        Some(Speaker {
            alloc: self.alloc,
            machine,
            name: self.names.name(number),
            book,
            machines: &self.names,
        })
    }

    /// The machine at a place.
    pub(crate) fn machine(&self, place: usize) -> Option<&Machine> {
        match self.machines.get(place) {
            Some(machine) => machine.as_ref(),
            None => None,
        }
    }

    /// Makes room for machines up to a place.
    pub(crate) fn make_room(&mut self, place: usize) -> Result<(), AllocError> {
        for _ in self.machines.len()..=place {
            self.machines.push(None)?;
        }
        Ok(())
    }

    /// The place of the machine of an id, where there is one that has not ended.
    pub(crate) fn receiver(&self, id: MachineId) -> Option<usize> {
        let machine = self.machine(id.slot)?;
        if machine.core.id() != id || machine.core.ended().is_some() {
            return None;
        }
        Some(id.slot)
    }

    /// The place of the machine of a name, where it was started.
    pub(crate) fn started(&self, name: &str) -> Option<usize> {
        let place = self.names.find(name)? as usize;
        self.machine(place)?;
        Some(place)
    }

    /// The place of the machine of a name, or of the last one where no name is given. Where there is none, that is told.
    pub(crate) fn addressed(&self, name: Option<&str>, page: &mut Page) -> Option<usize> {
        let Some(name) = name else {
            if self.last.is_none() {
                page.fault("no machine was started");
            }
            return self.last;
        };
        let place = self.started(name);
        if place.is_none() {
            page.fault_of("no machine ", name, "");
        }
        place
    }

    /// Posts an event to the machine at a place, which has not ended.
    pub(crate) fn post(
        &mut self,
        place: usize,
        source: Source,
        entry: Entry,
        signal: Signal,
    ) -> Result<(), AllocError> {
        match machine_in(&mut self.machines, place) {
            Some(machine) => machine.post(self.alloc, self.keeps, source, entry, signal),
            None => Ok(()),
        }
    }

    /// Tells the machine at a place a command without contents, which is handed in twice.
    pub(crate) fn tell(
        &mut self,
        place: usize,
        command: Command<Signal>,
        copy: Command<Signal>,
    ) -> Result<(), AllocError> {
        match machine_in(&mut self.machines, place) {
            Some(machine) => machine.tell(self.keeps, Source::Caller, command, copy),
            None => Ok(()),
        }
    }
}
