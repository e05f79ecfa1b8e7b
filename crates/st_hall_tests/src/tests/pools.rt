//! A pool serves all machines of a hall.
use super::host::{Host, holds};
use super::work::{Work, waits};
use st_pool::Runtime;
use std::process::Abort;

/// A thousand machines, which keep a journal, or none, make ten turns each.
fn make_ten_turns_each<R: Runtime>(rt: &Host<impl Abort + AllocGlobal>, threads: R, keeps: bool) {
    // Five posts, each of which inserts one more, and ten turns.
    let work = Work {
        machines: 1_000,
        rounds: 5,
        contents: (2, 2),
        entries: 15,
        turns: 10_000,
        keeps,
    };
    let waited = waits(rt, threads, 4, false, work);
    holds(rt, "nobody waits", waited == 0);
}

#[test]
fn a_thousand_machines_make_ten_turns_each(rt: HostRuntime) {
    let threads = rt;
    let rt = Host::with_memory(rt);
    make_ten_turns_each(&rt, threads, true);
    rt.end_with_memory();
}

#[test]
fn a_thousand_machines_without_a_journal_make_ten_turns_each(rt: HostRuntime) {
    let threads = rt;
    let rt = Host::with_memory(rt);
    make_ten_turns_each(&rt, threads, false);
    rt.end_with_memory();
}
