//! Readers and writers that give and take little at a time, and fail when they are told to.
ghost use Rattle.std.specs.Prelude.{◌≡◌, ◌<◌, ◌≤◌, IfOk};
ghost use Rattle.std.specs.Io.{ReadsAtMost};

use super::host::{Host, holds, same};
use st_door::{Counted, Mode, ScriptFault, run_script};
use st_door_pool::{Runtime, run_pool};
use std::alloc::Global;
use std::io::{self, ErrorKind, Read, Write};
use std::marker::Brand;
use std::process::Abort;
use std::sync::ledger::{Blank, Ledger};

/// By how many workers a script is run, and how it is read and written.
#[derive(Clone, Copy)]
pub struct Way {
    /// How many workers there are. With none, it is `run_script`.
    pub workers: usize,
    /// How many bytes a read gives or a write takes, at most.
    pub most: usize,
    /// Which read fails. The first one is 1, and 0 is none.
    pub failing_read: usize,
    /// Which write fails.
    pub failing_write: usize,
    /// Whether that write takes no bytes, in place of an error.
    pub takes_nothing: bool,
    ghost few: { workers ≤ 16 },
}

/// So many workers, all bytes at a time, and no failure.
pub fn by(workers: usize) -> Way
    requires { workers ≤ 16 }
{
    Way {
        workers,
        most: usize::MAX,
        failing_read: 0,
        failing_write: 0,
        takes_nothing: false,
    }
}

/// Gives the bytes of a slice.
#[derive(Drop)]
struct Reader<'a> {
    left: &'a [u8],
    reads: usize,
    most: usize,
    failing: usize,
}

/// Reads so many bytes at most.
fn read_some(left: &mut &[u8], most: usize, buf: &mut [u8]) -> io::Result<usize>
    ensures { ReadsAtMost result buf.new }
{
    let count = buf.len().min(most);
    left.read(&mut buf[..count])
}

impl Read for Reader<'_> {
    fn read(&mut self, buf: &mut [u8]) -> io::Result<usize> {
        self.reads = self.reads.saturating_add(1);
        if self.reads == self.failing {
            return Err(io::Error::from(ErrorKind::Other));
        }
        read_some(&mut self.left, self.most, buf)
    }
}

/// Holds the bytes that it took.
#[derive(Drop)]
struct Writer {
    held: Vec<u8>,
    writes: usize,
    most: usize,
    failing: usize,
    takes_nothing: bool,
}

impl Writer {
    /// What a write that fails answers.
    fn fail(&self) -> io::Result<usize>
        ensures { IfOk result (λ count. count ≡ 0) }
    {
        if self.takes_nothing {
            return Ok(0);
        }
        Err(io::Error::from(ErrorKind::Other))
    }
}

impl Write for Writer {
    fn write(&mut self, buf: &[u8]) -> io::Result<usize> {
        self.writes = self.writes.saturating_add(1);
        if self.writes == self.failing {
            return self.fail();
        }
        let count = buf.len().min(self.most);
        self.held.extend_from_slice(&buf[..count])?;
        Ok(count)
    }

    fn flush(&mut self) -> io::Result<()> {
        Ok(())
    }
}

/// An empty list with memory reserved for some bytes, whichever one allocation is refused.
pub fn with_reserved(alloc: Global, bytes: usize) -> Vec<u8> {
    let mut list = Vec::new(alloc);
    if list.reserve(bytes).is_err() {
        let _ = list.reserve(bytes);
    }
    list
}

/// Runs a script over a reader and a writer, in the ledgers that two blanks open.
fn over<R: Runtime, A: Ledger, B: Ledger>(
    threads: R,
    alloc: Global,
    workers: usize,
    reader: Reader<'_>,
    writer: Writer,
    a: Blank,
    b: Blank,
) -> (Result<u8, ScriptFault>, Vec<u8>)
    requires workers { workers ≤ 16 }
    requires a { (a.name ≡ A.name) × (a.parts ≡ A.parts) × (0 < a.parts) }
    requires b { (b.name ≡ B.name) × (b.parts ≡ B.parts) × (0 < b.parts) }
{
    let mut reader: Counted<Reader<'_>, A> = Counted::new(reader, a);
    let mut writer: Counted<Writer, B> = Counted::new(writer, b);
    let answer = if workers == 0 {
        run_script(alloc, Mode::Run, &mut reader, &mut writer)
    } else {
        run_pool(threads, alloc, workers, &mut reader, &mut writer)
    };
    drop(reader);
    (answer, writer.into_inner().held)
}

/// Runs a script: the answer, and what was written.
pub fn run_once<R: Runtime>(
    threads: R,
    alloc: Global,
    script: &[u8],
    way: Way,
) -> (Result<u8, ScriptFault>, Vec<u8>) {
    let reader = Reader {
        left: script,
        reads: 0,
        most: way.most,
        failing: way.failing_read,
    };
    let writer = Writer {
        held: with_reserved(alloc, 1024),
        writes: 0,
        most: way.most,
        failing: way.failing_write,
        takes_nothing: way.takes_nothing,
    };
    over::<R, Brand, Brand>(
        threads,
        alloc,
        way.workers,
        reader,
        writer,
        Blank::new(1),
        Blank::new(1),
    )
}

/// Sees that a front of the output was written where no memory was found.
fn wrote_a_front(rt: &Host<impl Abort>, held: &[u8], output: &[u8]) {
    let is_front = output.starts_with(held);
    holds(rt, "a front is written where memory is refused", is_front);
    rt.retry();
}

/// Runs a script that has this output. Where no memory was found, a front of that was written, and it is run once more.
fn run<R: Runtime>(
    rt: &Host<impl Abort + AllocGlobal>,
    threads: R,
    script: &[u8],
    way: Way,
    output: &[u8],
) -> (Result<u8, ScriptFault>, Vec<u8>) {
    let (answer, held) = run_once(threads, rt.alloc(), script, way);
    if answer != Err(ScriptFault::Memory) {
        return (answer, held);
    }
    wrote_a_front(rt, held.as_slice(), output);
    drop(held);
    run_once(threads, rt.alloc(), script, way)
}

/// Sees that a script ends with this answer when these bytes are written. Where no memory was found, a front of them was
/// written, and the script is run once more.
pub fn ends<R: Runtime>(
    rt: &Host<impl Abort + AllocGlobal>,
    threads: R,
    script: &[u8],
    way: Way,
    wanted: Result<u8, ScriptFault>,
    output: &[u8],
) {
    let (answer, held) = run(rt, threads, script, way, output);
    same(rt, "what is written", &held.as_slice(), &output);
    drop(held);
    same(rt, "the answer", &answer, &wanted);
}
