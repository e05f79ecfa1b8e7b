//! Reads, writes and allocations that fail.
use super::host::Host;
use super::pool_streams::{Way, by, ends};
use super::worked::{ALL, Worked};
use st_door::ScriptFault;
use st_door_pool::Runtime;
use std::process::Abort;

/// Two workers, a byte at a time, and the read or the write that fails.
fn failing(failing_read: usize, failing_write: usize, takes_nothing: bool) -> Way {
    Way {
        workers: 2,
        most: 1,
        failing_read,
        failing_write,
        takes_nothing,
    }
}

/// Sees that a script ends at each read that fails, before anything is written. There is a byte a read, and the end.
fn ends_at_each_read<R: Runtime>(rt: &Host<impl Abort + AllocGlobal>, threads: R, script: &[u8]) {
    for count in 0..=script.len() {
        let way = failing(count + 1, 0, false);
        ends(rt, threads, script, way, Err(ScriptFault::Read), b"");
    }
}

/// Sees that a script ends at each write that fails, or that takes nothing, a byte a write.
fn ends_at_each_write<R: Runtime>(
    rt: &Host<impl Abort + AllocGlobal>,
    threads: R,
    script: &[u8],
    output: &[u8],
    takes_nothing: bool,
) {
    for count in 0..output.len() {
        let way = failing(0, count + 1, takes_nothing);
        ends(
            rt,
            threads,
            script,
            way,
            Err(ScriptFault::Write),
            &output[..count],
        );
    }
}

/// Sees that a worked script ends at each read and each write that fails.
fn ends_at_each_failure<R: Runtime>(
    rt: &Host<impl Abort + AllocGlobal>,
    threads: R,
    worked: &Worked,
) {
    ends_at_each_read(rt, threads, worked.script);
    let output = worked.output.as_bytes();
    ends_at_each_write(rt, threads, worked.script, output, false);
    ends_at_each_write(rt, threads, worked.script, output, true);
}

#[test]
fn each_worked_script_ends_at_each_failure(rt: HostRuntime) {
    let threads = rt;
    let rt = Host::new(rt);
    if rt.end() {
        return;
    }
    for worked in &ALL {
        ends_at_each_failure(&rt, threads, worked);
    }
}

#[test]
fn no_memory_ends_the_script(rt: HostRuntime) {
    let threads = rt;
    let rt = Host::new(rt);
    ends(
        &rt,
        threads,
        b"new a 1\nbutton a 1\nbutton a 1\nlength a\nat 10000\nstop a 7\nnames\nremove a\n",
        by(2),
        Ok(0),
        b"a locked buttons 0 waiting 0\n\
          a open buttons 0 waiting 0\n\
          a open buttons 0 waiting 1\n\
          a length 1\n\
          at 10000 expired 1\n\
          a stopped 7 word 0\n\
          names a\n\
          a removed\n",
    );
    rt.end();
}
