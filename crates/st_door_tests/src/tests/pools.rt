//! What pools of workers print.
use super::host::{Host, same};
use super::pool_long::long_script;
use super::pool_streams::{by, ends, run_once};
use super::worked::ALL;
use st_door::ScriptFault;
use st_door_pool::Runtime;
use std::process::Abort;

/// How many workers run a script: none is `run_script`.
static WORKERS: [usize; 4] = [0, 1, 2, 16];

/// Sees that each worked script prints its output, by so many workers.
fn print_the_worked<R: Runtime>(rt: &Host<impl Abort + AllocGlobal>, threads: R, workers: usize) {
    let way = by(workers.min(16));
    for worked in &ALL {
        let output = worked.output.as_bytes();
        ends(rt, threads, worked.script, way, Ok(worked.status), output);
    }
}

/// Sees that a long script comes to this answer and prints this, by so many workers.
fn prints_the_long<R: Runtime>(
    rt: &Host<impl Abort + AllocGlobal>,
    threads: R,
    workers: usize,
    long: &[u8],
    wanted: Result<u8, ScriptFault>,
    output: &[u8],
) {
    let way = by(workers.min(16));
    ends(rt, threads, long, way, wanted, output);
}

/// Sees that all workers print of each worked script and of a long one what `run_script` prints.
fn print_the_same<R: Runtime>(rt: &Host<impl Abort + AllocGlobal>, threads: R) {
    let long = long_script(rt.alloc()).expect(rt, "memory");
    let (wanted, output) = run_once(threads, rt.alloc(), long.as_slice(), by(0));
    // Some of the lines that are drawn are refused.
    same(rt, "the long script's answer", &wanted, &Ok(1));
    for workers in &WORKERS {
        let (script, printed) = (long.as_slice(), output.as_slice());
        print_the_worked(rt, threads, *workers);
        prints_the_long(rt, threads, *workers, script, wanted, printed);
    }
    drop(output);
    drop(long);
}

#[test]
fn workers_print_what_run_script_prints(rt: HostRuntime) {
    let threads = rt;
    let rt = Host::new(rt);
    if rt.end() {
        return;
    }
    print_the_same(&rt, threads);
}
