//! A whole run.

use crate::page::Page;
use crate::{Chart, Format, Output, Session, Shelf};
use st_chart::{Fault, Unread, read_chart};
use std::alloc::{AllocError, Global};

/// Writes the place of a description's fault.
pub(crate) fn put_place(file: &str, fault: &Fault, page: &mut Page) {
    page.put(file);
    page.put(":");
    page.put_number(fault.line as u64);
    page.put(":");
    page.put_number(fault.column as u64);
    page.put(": ");
}

/// Writes a description's fault.
pub(crate) fn put_fault(file: &str, fault: &Fault, page: &mut Page) {
    put_place(file, fault, page);
    page.put(fault.text.as_str());
}

/// The description that was read. Of one with faults there is none, and a text gets these, one a line.
pub(crate) fn read(
    alloc: Global,
    file: &str,
    text: &[u8],
    out: &mut Vec<u8>,
) -> Result<Option<Chart>, AllocError> {
    match read_chart(alloc, text) {
        Ok(chart) => Ok(Some(chart)),
        Err(Unread::Memory) => Err(AllocError),
        Err(Unread::Faults(faults)) => {
            let mut page = Page::new(alloc, 0, false);
            for fault in faults.as_slice() {
                put_fault(file, fault, &mut page);
                page.put("\n");
            }
            page.hand_out(out)?;
            Ok(None)
        }
    }
}

/// Tells a session lines of events, and ends it: what came of it, and its status.
fn run(
    session: &mut Session,
    events: &[u8],
    shelf: &mut impl Shelf,
    out: &mut Vec<u8>,
) -> Result<u8, AllocError> {
    for line in events.split(|byte| *byte == b'\n') {
        session.line(shelf, line, out)?;
    }
    session.finish(out)?;
    Ok(session.status())
}

/// Runs machines of the description in a text over lines of events, and adds what comes of it, or else the description's faults.
fn fill(
    alloc: Global,
    file: &str,
    text: &[u8],
    events: &[u8],
    format: Format,
    shelf: &mut impl Shelf,
    out: &mut Output,
) -> Result<(), AllocError> {
    let Some(chart) = read(alloc, file, text, &mut out.faults)? else {
        return Ok(());
    };
    let mut session = Session::new(alloc, file, text, chart, format)?;
    let ran = run(&mut session, events, shelf, &mut out.text);
    drop(session);
    out.status = ran?;
    Ok(())
}

/// Runs machines of the description in a text over lines of events.
///
/// Of a description with faults nothing is done but that they are told.
pub fn run_text(
    alloc: Global,
    file: &str,
    text: &[u8],
    events: &[u8],
    format: Format,
    shelf: &mut impl Shelf,
) -> Result<Output, AllocError> {
    let mut out = Output::new(alloc);
    match fill(alloc, file, text, events, format, shelf, &mut out) {
        Ok(()) => Ok(out),
        Err(error) => Err(error),
    }
}

/// A session that was opened, or the faults of its description.
#[derive(Drop)]
pub enum Opened {
    /// A session without machines.
    Session(Box<Session>),
    /// What is wrong with the description; nothing was done.
    Faults(Output),
}

/// A session that was opened.
fn boxed(alloc: Global, session: Session) -> Result<Opened, AllocError> {
    match Box::new(alloc, session) {
        Ok(session) => Ok(Opened::Session(session)),
        Err(_) => Err(AllocError),
    }
}

/// Opens a session of the description in a text, for lines of events that come one by one.
pub fn open_text(
    alloc: Global,
    file: &str,
    text: &[u8],
    format: Format,
) -> Result<Opened, AllocError> {
    let mut out = Output::new(alloc);
    match read(alloc, file, text, &mut out.faults) {
        Ok(Some(chart)) => boxed(alloc, Session::new(alloc, file, text, chart, format)?),
        Ok(None) => Ok(Opened::Faults(out)),
        Err(error) => Err(error),
    }
}
