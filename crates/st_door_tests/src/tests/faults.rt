//! Reads, writes and allocations that fail.

use super::host::{Host, same};
use super::streams::{Failure, PLAIN, Way, ends, shows};
use super::worked::{ALL, Worked};
use st_door::ScriptFault;
use std::alloc::{AllocError, Global};
use std::io::Print;
use std::process::Abort;

/// A script of 13 bytes.
const SCRIPT: &[u8] = b"show a\nnames\n";

/// Its output, of 23 bytes.
const OUTPUT: &[u8] = b"line 1 refused 8\nnames\n";

/// So many bytes at a time, and no failure.
fn at_most(most: usize) -> Way {
    Way { most, ..PLAIN }
}

/// So many bytes at a time, until a read fails.
fn failing_read(most: usize, failing_read: usize) -> Way {
    Way {
        most,
        failing_read,
        ..PLAIN
    }
}

/// So many bytes at a time, until a write fails.
fn failing_write(most: usize, failing_write: usize, failure: Failure) -> Way {
    Way {
        most,
        failing_write,
        failure,
        ..PLAIN
    }
}

/// Sees that a script ends at the read that fails, before anything is written.
fn ends_at_read(rt: &Host<impl Abort>, alloc: Global, script: &[u8], way: Way) {
    ends(rt, alloc, script, way, Err(ScriptFault::Read), b"");
}

/// Sees that a script ends at the write that fails, when these bytes are written.
fn ends_at_write(rt: &Host<impl Abort>, alloc: Global, script: &[u8], way: Way, output: &[u8]) {
    ends(rt, alloc, script, way, Err(ScriptFault::Write), output);
}

#[test]
fn a_byte_at_a_time_is_the_same(rt: HostRuntime) {
    let rt = Host::new(rt);
    ends(&rt, rt.alloc(), SCRIPT, at_most(1), Ok(1), OUTPUT);
    rt.end();
}

#[test]
fn a_read_that_fails_ends_the_script_before_it_begins(rt: HostRuntime) {
    let rt = Host::new(rt);
    // Four bytes a read: three full reads, one of a byte, and the end.
    for read in 1..6 {
        ends_at_read(&rt, rt.alloc(), SCRIPT, failing_read(4, read));
    }
    rt.end();
}

/// A test that fails at each write in turn: four bytes a write, of 17 bytes five writes and of 6 bytes two.
fn fail_writes(rt: &Host<impl Abort + Print + AllocGlobal>, failure: Failure) {
    for (write, length) in [(1, 0), (2, 4), (3, 8), (4, 12), (5, 16), (6, 17), (7, 21)] {
        let way = failing_write(4, write, failure);
        ends_at_write(rt, rt.alloc(), SCRIPT, way, &OUTPUT[..length]);
    }
    rt.end();
}

#[test]
fn a_write_that_fails_ends_the_script(rt: HostRuntime) {
    let rt = Host::new(rt);
    fail_writes(&rt, Failure::Error);
}

#[test]
fn a_write_that_takes_nothing_ends_the_script(rt: HostRuntime) {
    let rt = Host::new(rt);
    fail_writes(&rt, Failure::TakesNothing);
}

/// Sees that a worked script prints the same a byte at a time.
fn is_the_same(rt: &Host<impl Abort>, alloc: Global, worked: &Worked) {
    let (way, wanted) = (at_most(1), Ok(worked.status));
    let output = worked.output.as_bytes();
    ends(rt, alloc, worked.script, way, wanted, output);
}

#[test]
fn each_worked_script_is_the_same_a_byte_at_a_time(rt: HostRuntime) {
    let rt = Host::new(rt);
    if rt.end() {
        return;
    }
    for worked in &ALL {
        is_the_same(&rt, rt.alloc(), worked);
    }
}

/// Sees that a script ends at each read that fails: there is a byte a read, and the end.
fn ends_at_each_read(rt: &Host<impl Abort>, alloc: Global, script: &[u8]) {
    for count in 0..=script.len() {
        ends_at_read(rt, alloc, script, failing_read(1, count + 1));
    }
}

#[test]
fn each_worked_script_ends_at_each_read_that_fails(rt: HostRuntime) {
    let rt = Host::new(rt);
    if rt.end() {
        return;
    }
    for worked in &ALL {
        ends_at_each_read(&rt, rt.alloc(), worked.script);
    }
}

/// Sees that a script with this output ends at each write that fails, a byte a write.
fn ends_at_each_write(
    rt: &Host<impl Abort>,
    alloc: Global,
    script: &[u8],
    output: &[u8],
    failure: Failure,
) {
    for count in 0..output.len() {
        let way = failing_write(1, count + 1, failure);
        ends_at_write(rt, alloc, script, way, &output[..count]);
    }
}

/// A test that fails at each write of each worked script in turn, a byte a write.
fn fail_each_write(rt: &Host<impl Abort + Print + AllocGlobal>, failure: Failure) {
    if rt.end() {
        return;
    }
    for worked in &ALL {
        let output = worked.output.as_bytes();
        ends_at_each_write(rt, rt.alloc(), worked.script, output, failure);
    }
}

#[test]
fn each_worked_script_ends_at_each_write_that_fails(rt: HostRuntime) {
    let rt = Host::new(rt);
    fail_each_write(&rt, Failure::Error);
}

#[test]
fn each_worked_script_ends_at_each_write_that_takes_nothing(rt: HostRuntime) {
    let rt = Host::new(rt);
    fail_each_write(&rt, Failure::TakesNothing);
}

#[test]
fn no_memory_ends_the_script(rt: HostRuntime) {
    let rt = Host::new(rt);
    shows(
        &rt,
        b"new a 1\nbutton a 1\nbutton a 1\nat 10000\nstop a 7\nnames\n",
        "a locked buttons 0 waiting 0\n\
         a open buttons 0 waiting 0\n\
         a open buttons 0 waiting 1\n\
         at 10000 expired 1\n\
         a stopped 7 word 0\n\
         names a\n",
        0,
    );
}

/// The text of a fault.
fn text_of(alloc: Global, fault: ScriptFault) -> Result<String, AllocError> {
    format!(in alloc; "{fault}")
}

/// The text of a fault, which is printed again.
fn text_again(rt: &Host<impl Abort>, alloc: Global, fault: ScriptFault) -> String {
    rt.retry();
    text_of(alloc, fault).expect(rt, "memory")
}

/// Sees what text a fault has. Where memory was refused, it is printed again.
fn has_text(rt: &Host<impl Abort>, alloc: Global, fault: ScriptFault, text: &str) {
    let printed = match text_of(alloc, fault) {
        Ok(printed) => printed,
        Err(AllocError) => text_again(rt, alloc, fault),
    };
    same(rt, "the text of a fault", &printed.as_str(), &text);
    drop(printed);
}

#[test]
fn each_fault_has_its_text(rt: HostRuntime) {
    static TEXTS: [(ScriptFault, &str); 4] = [
        (ScriptFault::Read, "read fault"),
        (ScriptFault::TooLong, "input too long"),
        (ScriptFault::Write, "write fault"),
        (ScriptFault::Memory, "no memory"),
    ];
    let rt = Host::new(rt);
    for (fault, text) in &TEXTS {
        has_text(&rt, rt.alloc(), *fault, text);
    }
    rt.end();
}
