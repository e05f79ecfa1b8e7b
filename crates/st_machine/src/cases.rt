//! Transcripts are run again and compared.

use crate::running::read;
use crate::trial::Trial;
use crate::{Format, Session, Shelf, Tested};
use std::alloc::{AllocError, Global};

/// Takes the cases of a transcript, line by line.
fn take_all<'a>(
    trial: &mut Trial<'a>,
    cases: &'a [u8],
    shelf: &mut impl Shelf,
) -> Result<(), AllocError> {
    if cases.is_empty() {
        return Ok(());
    }
    let lines = cases.strip_suffix(b"\n".as_slice()).unwrap_or(cases);
    for line in lines.split(|byte| *byte == b'\n') {
        trial.take(shelf, line)?;
    }
    Ok(())
}

/// Tries the cases of a transcript.
fn fill(
    alloc: Global,
    file: &str,
    text: &[u8],
    cases: &[u8],
    shelf: &mut impl Shelf,
    out: &mut Tested,
) -> Result<(), AllocError> {
    let Some(chart) = read(alloc, file, text, &mut out.faults)? else {
        return Ok(());
    };
    let session = Session::new(alloc, file, text, chart, Format::Plain)?;
    let mut trial = Trial::new(alloc, session);
    match take_all(&mut trial, cases, shelf) {
        Ok(()) => trial.end(out),
        Err(error) => Err(error),
    }
}

/// Runs machines of the description in a text over the cases of a transcript, and compares what comes with what is
/// expected.
///
/// A line `= NAME` begins a case, which has a session of its own; a line `> LINE` is a line of events, and the other lines
/// behind it are what is expected of it. Blank lines and lines that begin with `#` count as nothing. Of a description with
/// faults nothing is done but that they are told.
pub fn test_text(
    alloc: Global,
    file: &str,
    text: &[u8],
    cases: &[u8],
    shelf: &mut impl Shelf,
) -> Result<Tested, AllocError> {
    let mut out = Tested {
        text: Vec::new(alloc),
        written: Vec::new(alloc),
        faults: Vec::new(alloc),
        status: 1,
    };
    match fill(alloc, file, text, cases, shelf, &mut out) {
        Ok(()) => Ok(out),
        Err(error) => Err(error),
    }
}
