//! What is written for one line of events.

use std::alloc::{AllocError, Global};

/// What is written for one line of events, until it is handed out.
///
/// A want of memory is kept: from then on the page takes nothing, and it is told where the page is handed out.
#[derive(Drop)]
pub(crate) struct Page {
    pub(crate) alloc: Global,
    /// Whether memory was wanted and there was none.
    pub(crate) failed: bool,
    /// Whether the line was at fault.
    pub(crate) faulty: bool,
    text: Vec<u8>,
    // The number of the line of events.
    line: u64,
    // Whether faults alone are written.
    quiet: bool,
    in_fault: bool,
}

impl Page {
    /// An empty page for the line of this number. A quiet one takes faults alone.
    pub(crate) fn new(alloc: Global, line: u64, quiet: bool) -> Page {
        Page {
            alloc,
            failed: false,
            faulty: false,
            text: Vec::new(alloc),
            line,
            quiet,
            in_fault: false,
        }
    }

    /// Writes bytes, where the page takes them.
    pub(crate) fn put_bytes(&mut self, bytes: &[u8]) {
        let takes = self.in_fault || !self.quiet;
        if takes && !self.failed {
            self.failed = self.text.extend_from_slice(bytes).is_err();
        }
    }

    /// Writes a text.
    pub(crate) fn put(&mut self, text: &str) {
        self.put_bytes(text.as_bytes());
    }

    /// Writes a number.
    pub(crate) fn put_number(&mut self, number: u64) {
        match format!(in self.alloc; "{number}") {
            Ok(text) => self.put(text.as_str()),
            Err(_) => self.failed = true,
        }
    }

    /// Begins to tell what is wrong in the line.
    pub(crate) fn begin_fault(&mut self) {
        self.in_fault = true;
        self.faulty = true;
        self.put("  line ");
        self.put_number(self.line);
        self.put(": ");
    }

    /// Ends to tell what is wrong in the line.
    pub(crate) fn end_fault(&mut self) {
        self.put("\n");
        self.in_fault = false;
    }

    /// Tells what is wrong in the line.
    pub(crate) fn fault(&mut self, text: &str) {
        self.begin_fault();
        self.put(text);
        self.end_fault();
    }

    /// Tells what is wrong with a word of the line.
    pub(crate) fn fault_of(&mut self, before: &str, word: &str, behind: &str) {
        self.begin_fault();
        self.put(before);
        self.put("\"");
        self.put(word);
        self.put("\"");
        self.put(behind);
        self.end_fault();
    }

    /// Adds what was written to a text. Where memory was wanted and there was none, it says so.
    pub(crate) fn hand_out(&self, out: &mut Vec<u8>) -> Result<(), AllocError> {
        if self.failed {
            return Err(AllocError);
        }
        out.extend_from_slice(self.text.as_slice())
    }
}
