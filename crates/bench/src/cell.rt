//! Casts and calls of a machine in a cell, whose journal keeps each of them.
use crate::load::{Load, Work};
use st_core::{Collected, Core, Entry, Refusal};
use st_events::Token;
use st_lock::{Cell, Posted};
use std::alloc::Global;

/// The one port.
const PORT: u64 = 1;

/// A cell as it is measured. What is done with any cell is proved with no contract of the cell at hand, which makes
/// these proofs short.
pub trait Celled: Drop {
    /// Posts through the port, if it is open.
    fn hand_in(&mut self, entry: Entry, content: Work) -> Result<Option<Posted>, Refusal>;

    /// Serves the machine by its token.
    fn serve(&mut self, token: Token) -> Result<(), Refusal>;

    /// Collects the reply to the call whose event has this number, and says whether there was one.
    fn has_reply(&mut self, number: u64) -> Result<bool, Refusal>;

    /// Cuts the journal where it has so many entries.
    fn cut_at(&mut self, most: u32) -> Result<(), Refusal>;
}

impl Celled for Cell<Load> {
    fn hand_in(&mut self, entry: Entry, content: Work) -> Result<Option<Posted>, Refusal> {
        if !self.is_open(PORT) {
            return Ok(None);
        }
        match self.post(PORT, entry, content) {
            Ok(posted) => Ok(Some(posted)),
            Err(refused) => Err(refused.refusal),
        }
    }

    fn serve(&mut self, token: Token) -> Result<(), Refusal> {
        match self.turn(token, 0) {
            Ok(_next) => Ok(()),
            Err(refused) => Err(refused.refusal),
        }
    }

    fn has_reply(&mut self, number: u64) -> Result<bool, Refusal> {
        let tag = self.core().tag(number);
        match self.collect(tag) {
            Ok(collected) => Ok(matches!(collected, Collected::Reply(_))),
            Err(refusal) => Err(refusal),
        }
    }

    fn cut_at(&mut self, most: u32) -> Result<(), Refusal> {
        if self.entries().len() < most as usize {
            return Ok(());
        }
        self.cut()
    }
}

/// A machine in a cell.
fn begun(alloc: Global, core: Core<Load>) -> Result<Cell<Load>, Refusal> {
    match Cell::new(alloc, core).ok() {
        Some((cell, _token)) => Ok(cell),
        None => Err(Refusal::NoMemory),
    }
}

/// Opens the one port.
fn open(cell: &mut Cell<Load>) -> Result<(), Refusal> {
    match cell.port() {
        Ok(_port) => Ok(()),
        Err(refusal) => Err(refusal),
    }
}

/// Puts a cell into a box. A body that owns it there while it calls is proved much sooner.
fn boxed(alloc: Global, cell: Cell<Load>) -> Result<Box<Cell<Load>>, Refusal> {
    Ok(Box::new(alloc, cell)?)
}

/// A machine in a cell with one port.
pub fn in_cell(alloc: Global, core: Core<Load>) -> Result<Box<Cell<Load>>, Refusal> {
    let mut cell = boxed(alloc, begun(alloc, core)?)?;
    open(&mut cell)?;
    Ok(cell)
}

/// Posts an event and serves the machine. It answers the event's number.
fn post_and_serve<T: Celled>(
    cell: &mut T,
    entry: Entry,
    content: Work,
) -> Result<Option<u64>, Refusal> {
    match cell.hand_in(entry, content)? {
        Some(
            Posted {
                number,
                wake: Some(token),
            },
        ) => {
            cell.serve(token)?;
            Ok(Some(number))
        }
        _ => Ok(None),
    }
}

/// Posts a cast and serves the machine, so many times; where the journal has so many entries, it is cut. It counts the
/// casts that were served.
pub fn cast_in_cell<T: Celled>(cell: &mut T, count: u32, most: u32) -> Result<u64, Refusal> {
    let mut served = 0u64;
    for _ in 0..count {
        if post_and_serve(cell, Entry::Cast, Work::Keep)?.is_some() {
            served = served.saturating_add(1);
        }
        cell.cut_at(most)?;
    }
    Ok(served)
}

/// Posts a call, serves the machine and collects the reply, so many times; where the journal has so many entries, it is
/// cut. It counts the replies.
pub fn call_in_cell<T: Celled>(cell: &mut T, count: u32, most: u32) -> Result<u64, Refusal> {
    let mut replies = 0u64;
    for _ in 0..count {
        if let Some(number) = post_and_serve(cell, Entry::Call, Work::Answer)? {
            if cell.has_reply(number)? {
                replies = replies.saturating_add(1);
            }
        }
        cell.cut_at(most)?;
    }
    Ok(replies)
}
