//! Traces of worked scripts, and reads, writes and allocations that fail in their mode.

use super::host::Host;
use super::streams::{PLAIN, Way, ends, ends_in_memory};
use super::worked::{ALL, RETRYING, Worked};
use st_door::{Mode, ScriptFault};
use std::alloc::Global;
use std::process::Abort;

/// All at a time, in the mode that prints traces.
const TRACED: Way = Way {
    mode: Mode::Trace,
    ..PLAIN
};

/// A script of one door, which presses one button.
const BUTTON: &[u8] = b"new front 12\nbutton front 1\n";

/// Its trace.
const PRESSED: &[u8] = b"machine 0 1 front\n\
    \x20        1      1 post                      -          1 cast\n\
    \x20        2      - turn                      0          1 cast locked locked finished 0 0 1\n\
    summary posts 1 turns 1 finished 1 put_off 0\n";

/// Sees that a worked script prints its traces.
fn prints_its_traces(rt: &Host<impl Abort>, alloc: Global, worked: &Worked) {
    let trace = worked.trace.as_bytes();
    let wanted = Ok(worked.status);
    ends(rt, alloc, worked.script, TRACED, wanted, trace);
}

#[test]
fn each_worked_script_prints_its_traces(rt: HostRuntime) {
    let rt = Host::new(rt);
    if rt.end() {
        return;
    }
    for worked in &ALL {
        prints_its_traces(&rt, rt.alloc(), worked);
    }
}

#[test]
fn no_memory_ends_a_traced_script(rt: HostRuntime) {
    let rt = Host::new(rt);
    ends(&rt, rt.alloc(), BUTTON, TRACED, Ok(0), PRESSED);
    ends_in_memory(&rt, rt.alloc(), Mode::Trace, BUTTON, Ok(0), PRESSED);
    rt.end();
}

/// A byte at a time, in the mode that prints traces, and the read or the write that fails.
fn failing(failing_read: usize, failing_write: usize) -> Way {
    Way {
        most: 1,
        failing_read,
        failing_write,
        ..TRACED
    }
}

/// Sees that a script with this trace ends at each write that fails, a byte a write.
fn ends_at_each_write(rt: &Host<impl Abort>, alloc: Global, script: &[u8], trace: &[u8]) {
    let fault = Err(ScriptFault::Write);
    for count in 0..trace.len() {
        let way = failing(0, count + 1);
        ends(rt, alloc, script, way, fault, &trace[..count]);
    }
}

#[test]
fn a_traced_script_ends_at_each_write_that_fails(rt: HostRuntime) {
    let rt = Host::new(rt);
    if rt.end() {
        return;
    }
    let (script, trace) = (RETRYING.script, RETRYING.trace.as_bytes());
    ends_at_each_write(&rt, rt.alloc(), script, trace);
    let fault = Err(ScriptFault::Read);
    ends(&rt, rt.alloc(), script, failing(3, 0), fault, b"");
}
