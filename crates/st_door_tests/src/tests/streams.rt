//! Readers and writers that give and take little at a time, and fail when they are told to.
ghost use Rattle.std.specs.Prelude.{◌≡◌, ◌<◌};
ghost use Rattle.std.specs.Io.{ReadsAtMost};

use super::host::{Host, holds, same};
use st_door::{Counted, Mode, RunOutput, ScriptFault, run_in_memory, run_script};
use std::alloc::Global;
use std::io::{self, ErrorKind, Print, Read, Write};
use std::marker::Brand;
use std::process::Abort;
use std::sync::ledger::{Blank, Ledger};

/// How a write fails.
#[derive(Clone, Copy)]
pub enum Failure {
    Error,
    TakesNothing,
}

/// How a script is run, read and written.
#[derive(Clone, Copy)]
pub struct Way {
    pub mode: Mode,
    /// How many bytes a read gives or a write takes, at most.
    pub most: usize,
    /// Which read fails. The first one is 1, and 0 is none.
    pub failing_read: usize,
    /// Which write fails.
    pub failing_write: usize,
    pub failure: Failure,
    /// For how many bytes of output memory is reserved from the start.
    pub reserved: usize,
}

/// All at a time, and no failure.
pub const PLAIN: Way = Way {
    mode: Mode::Run,
    most: usize::MAX,
    failing_read: 0,
    failing_write: 0,
    failure: Failure::Error,
    reserved: 1024,
};

/// Gives the bytes of a slice.
#[derive(Drop)]
struct Reader<'a> {
    left: &'a [u8],
    reads: usize,
    way: Way,
}

/// Reads so many bytes at most.
fn read_some(left: &mut &[u8], most: usize, buf: &mut [u8]) -> io::Result<usize>
    ensures { ReadsAtMost result buf.new }
{
    let count = buf.len().min(most);
    left.read(&mut buf[..count])
}

impl Read for Reader<'_> {
    fn read(&mut self, buf: &mut [u8]) -> io::Result<usize> {
        self.reads = self.reads.saturating_add(1);
        if self.reads == self.way.failing_read {
            return Err(io::Error::from(ErrorKind::Other));
        }
        read_some(&mut self.left, self.way.most, buf)
    }
}

/// Holds the bytes that it took, and notes whether it was handed one line at each write.
#[derive(Drop)]
struct Writer {
    held: Vec<u8>,
    writes: usize,
    by_lines: bool,
    way: Way,
}

/// Whether bytes are one line with its end.
fn is_line(bytes: &[u8]) -> bool {
    bytes.iter().position(|byte| *byte == b'\n') == bytes.len().checked_sub(1)
}

impl Write for Writer {
    fn write(&mut self, buf: &[u8]) -> io::Result<usize> {
        self.writes = self.writes.saturating_add(1);
        self.by_lines &= is_line(buf);
        if self.writes == self.way.failing_write {
            return match self.way.failure {
                Failure::Error => Err(io::Error::from(ErrorKind::Other)),
                Failure::TakesNothing => Ok(0),
            };
        }
        let count = buf.len().min(self.way.most);
        self.held.extend_from_slice(&buf[..count])?;
        Ok(count)
    }

    fn flush(&mut self) -> io::Result<()> {
        Ok(())
    }
}

/// An empty list with memory reserved for some bytes, whichever one allocation is refused.
pub fn with_reserved(alloc: Global, bytes: usize) -> Vec<u8> {
    let mut list = Vec::new(alloc);
    if list.reserve(bytes).is_err() {
        let _ = list.reserve(bytes);
    }
    list
}

/// Runs a script over a reader and a writer, in the ledgers that two blanks open.
fn over<A: Ledger, B: Ledger>(
    alloc: Global,
    mode: Mode,
    reader: Reader<'_>,
    writer: Writer,
    a: Blank,
    b: Blank,
) -> (Result<u8, ScriptFault>, Writer)
    requires a { (a.name ≡ A.name) × (a.parts ≡ A.parts) × (0 < a.parts) }
    requires b { (b.name ≡ B.name) × (b.parts ≡ B.parts) × (0 < b.parts) }
{
    let mut reader: Counted<Reader<'_>, A> = Counted::new(reader, a);
    let mut writer: Counted<Writer, B> = Counted::new(writer, b);
    let answer = run_script(alloc, mode, &mut reader, &mut writer);
    drop(reader);
    (answer, writer.into_inner())
}

/// Runs a script: the answer, and the writer with what was written.
fn run_once(alloc: Global, script: &[u8], way: Way) -> (Result<u8, ScriptFault>, Writer) {
    let reader = Reader {
        left: script,
        reads: 0,
        way,
    };
    let writer = Writer {
        held: with_reserved(alloc, way.reserved),
        writes: 0,
        by_lines: true,
        way,
    };
    over::<Brand, Brand>(
        alloc,
        way.mode,
        reader,
        writer,
        Blank::new(1),
        Blank::new(1),
    )
}

/// Sees that a front of the output was written where no memory was found.
fn wrote_a_front(rt: &Host<impl Abort>, writer: &Writer, output: &[u8]) {
    let is_front = output.starts_with(writer.held.as_slice());
    holds(rt, "a front is written where memory is refused", is_front);
    rt.retry();
}

/// Runs a script that has this output. Where no memory was found, a front of that was written, and it is run once more.
fn run(
    rt: &Host<impl Abort>,
    alloc: Global,
    script: &[u8],
    way: Way,
    output: &[u8],
) -> (Result<u8, ScriptFault>, Writer) {
    let (answer, writer) = run_once(alloc, script, way);
    if answer != Err(ScriptFault::Memory) {
        return (answer, writer);
    }
    wrote_a_front(rt, &writer, output);
    drop(writer);
    run_once(alloc, script, way)
}

/// A writer that takes all is handed each line by one write, in traces too.
fn comes_by_lines(rt: &impl Abort, writer: &Writer, way: Way) {
    let comes_by_lines = writer.by_lines || way.most < usize::MAX;
    holds(rt, "each line comes by one write", comes_by_lines);
}

/// Sees that a script ends with this answer when these bytes are written. Where no memory was found, a
/// front of them was written, and the script is run once more.
pub fn ends(
    rt: &Host<impl Abort>,
    alloc: Global,
    script: &[u8],
    way: Way,
    wanted: Result<u8, ScriptFault>,
    output: &[u8],
) {
    let (answer, writer) = run(rt, alloc, script, way, output);
    same(rt, "what is written", &writer.held.as_slice(), &output);
    same(rt, "the answer", &answer, &wanted);
    comes_by_lines(rt, &writer, way);
    drop(writer);
}

/// Sees that a run in memory came to this answer, and to this output.
fn came_to(
    rt: &impl Abort,
    done: &Result<RunOutput, ScriptFault>,
    wanted: &Result<u8, ScriptFault>,
    output: &[u8],
) {
    match done {
        Ok(done) => {
            same(rt, "the output", &done.output.as_slice(), &output);
            same(rt, "the status", &Ok(done.status), wanted);
        }
        Err(fault) => same(rt, "the fault", &Err(*fault), wanted),
    }
}

/// Runs a script whose bytes are in memory. Where no memory was found, it is run once more.
fn run_there(
    rt: &Host<impl Abort>,
    alloc: Global,
    mode: Mode,
    script: &[u8],
) -> Result<RunOutput, ScriptFault> {
    match run_in_memory(alloc, mode, script) {
        Ok(done) => Ok(done),
        Err(ScriptFault::Memory) => {
            rt.retry();
            run_in_memory(alloc, mode, script)
        }
        Err(fault) => Err(fault),
    }
}

/// Sees that a script whose bytes are in memory ends with this answer, and with this output. Where no memory was found, it
/// is run once more.
pub fn ends_in_memory(
    rt: &Host<impl Abort>,
    alloc: Global,
    mode: Mode,
    script: &[u8],
    wanted: Result<u8, ScriptFault>,
    output: &[u8],
) {
    let done = run_there(rt, alloc, mode, script);
    came_to(rt, &done, &wanted, output);
    drop(done);
}

/// Sees that a script prints this and has this status, also where its bytes are in memory.
pub fn prints(rt: &Host<impl Abort>, alloc: Global, script: &[u8], output: &str, status: u8) {
    ends(rt, alloc, script, PLAIN, Ok(status), output.as_bytes());
    ends_in_memory(rt, alloc, Mode::Run, script, Ok(status), output.as_bytes());
}

/// A test of one script, by what it prints and its status.
pub fn shows(rt: &Host<impl Abort + Print + AllocGlobal>, script: &[u8], output: &str, status: u8) {
    prints(rt, rt.alloc(), script, output, status);
    rt.end();
}

/// A test of scripts that have the same output and the same status.
pub fn all_show(
    rt: &Host<impl Abort + Print + AllocGlobal>,
    scripts: &[&[u8]],
    output: &str,
    status: u8,
) {
    for script in scripts {
        prints(rt, rt.alloc(), script, output, status);
    }
    rt.end();
}
