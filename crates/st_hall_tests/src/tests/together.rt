//! Turns of two machines at once.
use super::host::{Host, holds};
use super::work::{Work, waits};
use st_pool::Runtime;
use std::process::Abort;

/// Two machines, which keep a journal, or none, have one event each.
fn one_each(contents: (u32, u32), keeps: bool) -> Work {
    Work {
        machines: 2,
        rounds: 1,
        contents,
        entries: 2,
        turns: 2,
        keeps,
    }
}

/// The first machine's token waits at the gate, before its turn, for the second one's turn.
#[test]
fn two_workers_serve_two_machines_at_once_and_one_does_not(rt: HostRuntime) {
    let threads = rt;
    let rt = Host::with_memory(rt);
    let of_two = waits(&rt, threads, 2, true, one_each((1, 1), true));
    holds(&rt, "two workers do not wait in vain", of_two == 0);
    let of_one = waits(&rt, threads, 1, true, one_each((1, 1), true));
    holds(&rt, "one worker waits in vain", of_one == 1);
    rt.end_with_memory();
}

/// The first machine waits, in the midst of its turn, for the second one's turn. They keep a journal, or none.
fn is_served_meanwhile<R: Runtime>(rt: &Host<impl Abort + AllocGlobal>, threads: R, keeps: bool) {
    let of_two = waits(rt, threads, 2, false, one_each((3, 4), keeps));
    holds(rt, "two workers do not wait in vain", of_two == 0);
    let of_one = waits(rt, threads, 1, false, one_each((3, 4), keeps));
    holds(rt, "one worker waits in vain", of_one == 1);
}

#[test]
fn a_machine_is_served_while_another_is_in_its_turn(rt: HostRuntime) {
    let threads = rt;
    let rt = Host::with_memory(rt);
    is_served_meanwhile(&rt, threads, true);
    rt.end_with_memory();
}

#[test]
fn one_without_a_journal_is_served_while_another_is_in_its_turn(rt: HostRuntime) {
    let threads = rt;
    let rt = Host::with_memory(rt);
    is_served_meanwhile(&rt, threads, false);
    rt.end_with_memory();
}
