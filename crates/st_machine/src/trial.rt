//! A trial: cases are run again, and what comes is compared with what is expected.

use crate::expected::Expected;
use crate::page::Page;
use crate::{Session, Shelf, Tested};
use std::alloc::{AllocError, Global};
use std::mem;

/// A trial of cases.
#[derive(Drop)]
pub(crate) struct Trial<'a> {
    alloc: Global,
    session: Session,
    // How each case ended.
    results: Page,
    // The cases as they came.
    written: Page,
    // The name of the present case, if one has begun, and whether it differs.
    name: Option<&'a [u8]>,
    differs: bool,
    passed: u64,
    failed: u64,
    // The number of the present line, and of the last one that says or expects something.
    line: u64,
    last: u64,
    // Whether a line of events came in the present case, and the number of the first line that is expected before one.
    is_told: bool,
    stray: Option<u64>,
    // What came of the last line of events, and what is expected of it.
    came: Vec<u8>,
    expected: Vec<Expected<'a>>,
}

/// The lines that came of a line of events, without that line itself.
fn lines_of(alloc: Global, came: &[u8]) -> Result<Vec<&[u8]>, AllocError> {
    let mut lines = Vec::new(alloc);
    let mut is_first = true;
    for line in came.split(|byte| *byte == b'\n') {
        if !is_first && !line.is_empty() {
            lines.push(line)?;
        }
        is_first = false;
    }
    Ok(lines)
}

/// Writes a line in quotes, or that there is none.
fn put_line(line: Option<&[u8]>, page: &mut Page) {
    match line {
        Some(line) => {
            page.put("\"");
            page.put_bytes(line);
            page.put("\"");
        }
        None => page.put("nothing"),
    }
}

/// Writes a line with a line feed.
fn put_whole_line(line: &[u8], page: &mut Page) {
    page.put_bytes(line);
    page.put("\n");
}

/// Tells that a line is expected where no line of events came before it.
fn tell_stray(alloc: Global, line: u64, out: &mut Vec<u8>) -> Result<(), AllocError> {
    let mut page = Page::new(alloc, 0, false);
    page.put("line ");
    page.put_number(line);
    page.put(" of the cases stands before the first line of events, which begins with \">\"\n");
    page.hand_out(out)
}

impl<'a> Trial<'a> {
    /// A trial without a case.
    pub(crate) fn new(alloc: Global, session: Session) -> Trial<'a> {
        Trial {
            alloc,
            session,
            results: Page::new(alloc, 0, false),
            written: Page::new(alloc, 0, false),
            name: None,
            differs: false,
            passed: 0,
            failed: 0,
            line: 0,
            last: 0,
            is_told: false,
            stray: None,
            came: Vec::new(alloc),
            expected: Vec::new(alloc),
        }
    }

    /// Compares a line that is expected with the one that came. The first difference of a case is told.
    fn compare(&mut self, expected: Option<Expected<'a>>, came: Option<&[u8]>) {
        let (line, expected) = match expected {
            Some(expected) => (expected.line, Some(expected.text)),
            None => (self.last, None),
        };
        if self.differs || expected == came {
            return;
        }
        self.differs = true;
        let page = &mut self.results;
        page.put("differs ");
        page.put_bytes(self.name.unwrap_or(b"".as_slice()));
        page.put(": line ");
        page.put_number(line);
        page.put(" of the cases: ");
        put_line(expected, page);
        page.put(" is expected, and ");
        put_line(came, page);
        page.put(" came\n");
    }

    /// Ends a line of events: what came of it is compared.
    fn end_event(&mut self) -> Result<(), AllocError> {
        let came = mem::replace(&mut self.came, Vec::new(self.alloc));
        let expected = mem::replace(&mut self.expected, Vec::new(self.alloc));
        let lines = lines_of(self.alloc, came.as_slice())?;
        for place in 0..lines.len().max(expected.len()) {
            self.compare(expected.get(place).copied(), lines.get(place).copied());
        }
        Ok(())
    }

    /// Ends the present case, if one has begun.
    fn end_case(&mut self) -> Result<(), AllocError> {
        self.end_event()?;
        if let Some(name) = self.name {
            if self.differs {
                self.failed = self.failed.saturating_add(1);
            } else {
                self.passed = self.passed.saturating_add(1);
                self.results.put("ok ");
                put_whole_line(name, &mut self.results);
            }
        }
        self.session.restart();
        self.differs = false;
        self.is_told = false;
        Ok(())
    }

    /// A line of events comes.
    fn take_event(&mut self, shelf: &mut impl Shelf, event: &[u8]) -> Result<(), AllocError> {
        self.end_event()?;
        self.session.line(shelf, event, &mut self.came)?;
        let lines = lines_of(self.alloc, self.came.as_slice())?;
        for line in lines.as_slice() {
            put_whole_line(line, &mut self.written);
        }
        Ok(())
    }

    /// Takes a line of the cases.
    pub(crate) fn take(
        &mut self,
        shelf: &mut impl Shelf,
        line: &'a [u8],
    ) -> Result<(), AllocError> {
        self.line = self.line.saturating_add(1);
        let line = line.strip_suffix(b"\r".as_slice()).unwrap_or(line);
        if let None | Some(b'#') = line.trim_ascii().first() {
            put_whole_line(line, &mut self.written);
            return Ok(());
        }
        if let Some(name) = line.strip_prefix(b"=".as_slice()) {
            put_whole_line(line, &mut self.written);
            self.end_case()?;
            self.name = Some(name.trim_ascii());
            return Ok(());
        }
        self.name = Some(self.name.unwrap_or(b"unnamed".as_slice()));
        if let Some(event) = line.strip_prefix(b">".as_slice()) {
            self.is_told = true;
            put_whole_line(line, &mut self.written);
            self.take_event(shelf, event.trim_ascii_start())?;
            self.last = self.line;
            return Ok(());
        }
        self.last = self.line;
        if !self.is_told {
            self.stray = Some(self.stray.unwrap_or(self.line));
        }
        let line = Expected {
            line: self.line,
            text: line,
        };
        self.expected.push(line)?;
        Ok(())
    }

    /// Ends the trial: how each case ended, the cases as they came, and whether one differs.
    pub(crate) fn end(mut self, out: &mut Tested) -> Result<(), AllocError> {
        self.end_case()?;
        let Trial {
            alloc,
            mut results,
            written,
            passed,
            failed,
            stray,
            ..
        } = self;
        results.put_number(passed);
        results.put(" passed, ");
        results.put_number(failed);
        results.put(" failed\n");
        results.hand_out(&mut out.text)?;
        written.hand_out(&mut out.written)?;
        out.status = u8::from(failed > 0);
        match stray {
            Some(line) => tell_stray(alloc, line, &mut out.faults),
            None => Ok(()),
        }
    }
}
