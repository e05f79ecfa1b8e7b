//! A session: machines, and the lines of events that they are told.

use crate::machine::Machine;
use crate::page::Page;
use crate::word::words_of;
use crate::world::World;
use crate::{Chart, Format, Shelf};
use st_chart::Names;
use st_due::DueQueue;
use st_events::MOMENT_LIMIT;
use std::alloc::{AllocError, Global};
use std::collections::BTreeSet;

/// How many bytes a line of events may have.
pub const LINE_LIMIT: usize = 4096;

/// How many turns the machines make for one line of events, at most, where nothing else is said.
pub const TURN_LIMIT: u64 = 1_000_000;

/// Machines of one description or more, and the lines of events that they are told.
///
/// Where a call finds no memory, the session is to be let go: what it would tell from then on may miss something.
#[derive(Drop)]
pub struct Session {
    /// How many turns the machines make for one line of events, at most.
    pub turns: u64,
    /// Whether moments are a clock's, by `pass` alone. Then a line `at` is at fault.
    pub has_clock: bool,
    pub(crate) format: Format,
    pub(crate) world: World,
    /// The places of the machines that have something to do.
    pub(crate) busy: BTreeSet<usize>,
    /// When the next time-out of each machine is due.
    pub(crate) due: DueQueue,
    /// The places of the machines that are told of at the end of the line.
    pub(crate) told: BTreeSet<usize>,
    pub(crate) moment: u64,
    /// How many turns may still be made for the line.
    pub(crate) left: u64,
    // How many lines there were.
    pub(crate) line: u64,
    faulty: bool,
}

impl Session {
    /// A session of the description that was read from this text, with no machine, at moment 0. It may find no memory.
    ///
    /// The description is known to lines of events by the name of its file, too.
    pub fn new(
        alloc: Global,
        file: &str,
        text: &[u8],
        chart: Chart,
        format: Format,
    ) -> Result<Session, AllocError> {
        let mut world = World {
            alloc,
            keeps: matches!(format, Format::Trace | Format::Json),
            books: Vec::new(alloc),
            files: Names::new(alloc),
            machines: Vec::new(alloc),
            last: None,
            names: Names::new(alloc),
        };
        world.add(file, text, chart)?;
        Ok(Session {
            turns: TURN_LIMIT,
            has_clock: false,
            format,
            world,
            busy: BTreeSet::new(alloc),
            due: DueQueue::new(alloc),
            told: BTreeSet::new(alloc),
            moment: 0,
            left: 0,
            line: 0,
            faulty: false,
        })
    }

    /// Lets go of all machines, and begins anew at moment 0 with no line. The descriptions stay.
    pub fn restart(&mut self) {
        let alloc = self.world.alloc;
        self.world.machines = Vec::new(alloc);
        self.world.last = None;
        self.world.names = Names::new(alloc);
        self.busy = BTreeSet::new(alloc);
        self.due = DueQueue::new(alloc);
        self.told = BTreeSet::new(alloc);
        self.moment = 0;
        self.line = 0;
        self.faulty = false;
    }

    /// The moment, in milliseconds, at which something is to be done next: the next time-out, or at once where a line
    /// made as many turns as it may.
    pub fn next_due(&self) -> Option<u64> {
        if self.busy.is_empty() {
            self.due.first()
        } else {
            Some(self.moment)
        }
    }

    /// Says whether a machine was started, and all have ended.
    pub fn is_over(&self) -> bool {
        self.world.last.is_some() && self.world.machines.iter().all(has_ended)
    }

    /// 1 where a line was at fault, else 0.
    pub fn status(&self) -> u8 {
        u8::from(self.faulty)
    }

    /// A page for what is told of the present line, for which all turns may be made.
    fn begin(&mut self) -> Page {
        self.left = self.turns;
        Page::new(self.world.alloc, self.line, self.world.keeps)
    }

    /// Tells how the machines are that did something, and hands out what was told.
    fn end(&mut self, mut page: Page, out: &mut Vec<u8>) -> Result<(), AllocError> {
        if !self.busy.is_empty() {
            page.begin_fault();
            page.put("more than ");
            page.put_number(self.turns);
            page.put(" turns; what waits goes on with the next line");
            page.end_fault();
        }
        for _ in 0..usize::MAX {
            let Some(place) = self.told.pop_first() else {
                break;
            };
            if let Some(by) = self.world.speaker(place) {
                by.tell_status(&mut page);
            }
        }
        self.faulty = self.faulty || page.faulty;
        match self.format {
            Format::Look => self.look(page, out),
            _ => page.hand_out(out),
        }
    }

    /// Takes a line of events, without its line feed, and adds what comes of it to a text.
    pub fn line(
        &mut self,
        shelf: &mut impl Shelf,
        line: &[u8],
        out: &mut Vec<u8>,
    ) -> Result<(), AllocError> {
        self.line = self.line.saturating_add(1);
        let line = line.strip_suffix(b"\r".as_slice()).unwrap_or(line);
        if let None | Some(b'#') = line.trim_ascii().first() {
            return Ok(());
        }
        let mut page = self.begin();
        page.put("> ");
        page.put_bytes(line);
        page.put("\n");
        self.take(shelf, line, &mut page)?;
        self.settle(&mut page)?;
        self.end(page, out)
    }

    /// Does what a line says.
    fn take(
        &mut self,
        shelf: &mut impl Shelf,
        line: &[u8],
        page: &mut Page,
    ) -> Result<(), AllocError> {
        let Some(line) = text_of(line, page) else {
            return Ok(());
        };
        let Some(words) = words_of(line, page) else {
            return Ok(());
        };
        self.obey(shelf, words.as_slice(), page)
    }

    /// Lets time pass to a moment, in milliseconds, as a line `at` does, and adds what comes of it to a text.
    pub fn pass(&mut self, moment: u64, out: &mut Vec<u8>) -> Result<(), AllocError> {
        let mut page = self.begin();
        self.pass_to(moment.min(MOMENT_LIMIT - 1), &mut page)?;
        self.end(page, out)
    }
}

/// Says whether there is no machine that runs.
fn has_ended(machine: &Option<Machine>) -> bool {
    match machine {
        Some(machine) => machine.core.ended().is_some(),
        None => true,
    }
}

/// The text of a line. Where it is too long, or no text, that is told.
fn text_of<'a>(line: &'a [u8], page: &mut Page) -> Option<&'a str> {
    if line.len() > LINE_LIMIT {
        page.fault("the line has more than 4,096 bytes");
        return None;
    }
    let text = str::from_utf8(line).ok();
    if text.is_none() {
        page.fault("the line is not UTF-8");
    }
    text
}
