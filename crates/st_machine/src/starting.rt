//! Machines start.

use crate::book::Book;
use crate::given::Given;
use crate::machine::Machine;
use crate::naming::is_name;
use crate::page::Page;
use crate::reading::id_at;
use crate::running::put_fault;
use crate::watched::Watched;
use crate::word::{Word, file_of};
use crate::world::World;
use crate::{Chart, Session, Shelf};
use st_answers::Report;
use st_chart::{Unread, read_chart};
use st_core::{Core, Start};
use st_events::Reason;
use st_table::Place;
use std::alloc::AllocError;
use std::cell::Cell;
use std::collections::BTreeSet;

/// Tells that a start made no machine: it was ignored, or it stopped for a reason.
fn tell_no_start(name: &str, reason: Option<Reason>, page: &mut Page) {
    page.put("  ");
    page.put(name);
    match reason {
        None => page.put(" is ignored"),
        Some(reason) => {
            page.put(" stopped ");
            page.put_number(u64::from(reason));
        }
    }
    page.put("\n");
}

impl World {
    /// Adds the description of a file, behind the others. It may find no memory.
    pub(crate) fn add(&mut self, file: &str, text: &[u8], chart: Chart) -> Result<(), AllocError> {
        let book = Book::new(self.alloc, text, chart)?;
        self.books.push(book)?;
        self.files.number(self.alloc, file)?;
        Ok(())
    }

    /// Reads and adds the description of a file. Where it has faults, they are told.
    fn read(&mut self, file: &str, text: &[u8], page: &mut Page) -> Result<(), AllocError> {
        match read_chart(self.alloc, text) {
            Ok(chart) => self.add(file, text, chart),
            Err(Unread::Memory) => Err(AllocError),
            Err(Unread::Faults(faults)) => {
                for fault in faults.as_slice() {
                    page.begin_fault();
                    put_fault(file, fault, page);
                    page.end_fault();
                }
                Ok(())
            }
        }
    }

    /// The place of the description of a file, which is read where it was not before. Where there is none, that is told.
    fn fetch(
        &mut self,
        shelf: &mut impl Shelf,
        file: &str,
        page: &mut Page,
    ) -> Result<Option<u32>, AllocError> {
        let place = self.files.find(file);
        if place.is_some() {
            return Ok(place);
        }
        match shelf.description(self.alloc, file)? {
            Some(text) => self.read(file, text.as_slice(), page)?,
            None => page.fault_of("no file ", file, ""),
        }
        Ok(self.files.find(file))
    }

    /// Says whether a machine may get this name. Where not, that is told.
    fn is_free(&self, name: &str, page: &mut Page) -> bool {
        if !is_name(name) {
            let wanted = " is no name: a letter, then letters, digits, _ and -, at most 64 bytes";
            page.fault_of("", name, wanted);
            return false;
        }
        let is_free = self.started(name).is_none();
        if !is_free {
            page.fault_of("", name, " was started before");
        }
        is_free
    }

    /// A machine comes to the others, at a place for which there is room. What its start did is told.
    fn enrol(&mut self, place: usize, machine: Machine, report: &Report<Place>, page: &mut Page) {
        if let Some(free) = self.machines.get_mut(place) {
            *free = Some(machine);
        }
        self.last = Some(place);
        if let Some(by) = self.speaker(place) {
            by.tell_start(report, page);
        }
    }

    /// A machine of a name starts at a place and a moment, of the description at another. It answers whether there is one then.
    fn begin(
        &mut self,
        name: &str,
        place: usize,
        book: usize,
        given: Given,
        moment: u64,
        page: &mut Page,
    ) -> Result<bool, AllocError> {
        let module = match self.books.get(book) {
            Some(book) => Watched {
                interpreter: book.interpreter()?,
                heard: Cell::new(None),
            },
            None => return Ok(false),
        };
        self.make_room(place)?;
        let Ok(start) = Core::start(self.alloc, module, id_at(place), &given.values, moment) else {
            return Err(AllocError);
        };
        match start {
            Start::Running(core, report) => {
                let machine = Machine {
                    core: Box::new(self.alloc, core)?,
                    book,
                    from: moment,
                    arguments: given.texts,
                    open: BTreeSet::new(self.alloc),
                    entries: Vec::new(self.alloc),
                    lines: Vec::new(self.alloc),
                    unlined: 0,
                };
                self.enrol(place, machine, &report, page);
                Ok(true)
            }
            Start::Ignored => {
                tell_no_start(name, None, page);
                Ok(false)
            }
            Start::Stopped(reason) => {
                tell_no_start(name, Some(reason), page);
                Ok(false)
            }
        }
    }
}

impl Session {
    /// A machine starts as words say.
    pub(crate) fn start(
        &mut self,
        shelf: &mut impl Shelf,
        words: &[Word<'_>],
        page: &mut Page,
    ) -> Result<(), AllocError> {
        let Some((first, rest)) = words.split_first() else {
            page.fault("a name is wanted behind new");
            return Ok(());
        };
        let name = first.plain();
        if !self.world.is_free(name, page) {
            return Ok(());
        }
        let Some((file, rest)) = file_of(rest) else {
            return self.start_of(name, 0, rest, page);
        };
        match self.world.fetch(shelf, file, page)? {
            Some(book) => self.start_of(name, book as usize, rest, page),
            None => Ok(()),
        }
    }

    /// A machine of a name starts of the description at a place, with the arguments that words say.
    fn start_of(
        &mut self,
        name: &str,
        book: usize,
        words: &[Word<'_>],
        page: &mut Page,
    ) -> Result<(), AllocError> {
        let most = match self.world.books.get(book) {
            Some(book) => book.chart.names.arguments.len(),
            None => 0,
        };
        if words.len() > most {
            page.begin_fault();
            page.put("more arguments than the description names: ");
            page.put_number(most as u64);
            page.end_fault();
            return Ok(());
        }
        let place = self.world.names.number(self.world.alloc, name)? as usize;
        let Some(given) = self.world.given(words, page)? else {
            return Ok(());
        };
        let moment = self.moment;
        if self.world.begin(name, place, book, given, moment, page)? {
            self.told.insert(place)?;
            self.note(place)?;
        }
        Ok(())
    }
}
