//! Threads that share a machine: each posts through a port of its own, or waits for a reply.
use super::begun::{AT_FIRST, machine, tag};
use super::host::{Host, got, holds};
use super::plain::Plain;
use super::posting::Posting;
use st_lock::{Collected, Entry, Machine, Port};
use std::alloc::Global;
use std::process::Abort;
use std::sync::atomic::{AtomicU64, Ordering};
use std::sync::{Arc, Wait};
use std::thread;

/// How often one looks at the machine before one takes the others to be asleep.
const LOOKS: u32 = 5_000;

/// A machine that has just started, which threads may share.
fn begun_shared(rt: &Host<impl Abort>, alloc: Global) -> Arc<Machine<Plain>> {
    let core = machine(rt, alloc, &AT_FIRST);
    let (machine, token) = got(rt, "a machine", Machine::new(alloc, core));
    holds(rt, "it has no work", token == None);
    Arc::new(alloc, machine).expect(rt, "there is memory")
}

/// A port of its own for a thread.
fn port(rt: &impl Abort, threads: &impl Wait, machine: &Arc<Machine<Plain>>) -> Port<Plain> {
    got(rt, "a port", Machine::port(machine, threads))
}

/// Posts a hundred casts.
fn cast_hundred<P: Posting>(threads: &impl Wait, mut port: P, content: u32) -> P {
    for _ in 0..100 {
        let _ = port.post_one(threads, Entry::Cast, content);
    }
    port
}

/// Looks that a hundred of four hundred casts were posted through a port, with numbers that rise.
fn is_one_of_four<P: Posting>(rt: &impl Abort, threads: &impl Wait, mut port: P) {
    let seen = got(rt, "a look", port.glance(threads));
    drop(port);
    holds(rt, "it has posted 100", seen.count == 100);
    holds(rt, "100 are mine", seen.mine == 100);
    holds(rt, "there are 400 entries", seen.entries == 400);
    holds(rt, "400 wait", seen.waiting == 400);
    holds(rt, "100 numbers are mine", seen.numbers == 100);
    holds(rt, "the numbers rise", seen.rise);
}

#[test]
fn four_threads_post_through_ports_of_their_own(rt: HostRuntime) {
    let threads = rt;
    let rt = Host::with_memory(rt);
    let machine = begun_shared(&rt, rt.alloc());
    let mut children = Vec::new(rt.alloc());
    for content in 10..14 {
        let port = port(&rt, &threads, &machine);
        let child = thread::spawn(&threads, move || cast_hundred(&threads, port, content));
        children
            .push(child.expect(&rt, "a thread"))
            .expect(&rt, "a place");
    }
    let mut ports = Vec::new(rt.alloc());
    for child in children {
        ports.push(child.join(&threads)).expect(&rt, "a place");
    }
    for port in ports {
        is_one_of_four(&rt, &threads, port);
    }
    drop(machine);
    rt.end_with_memory();
}

/// Says that it begins, and waits for what is kept for a request.
fn waits(
    rt: &impl Wait,
    machine: &Machine<Plain>,
    begun: &AtomicU64,
    request: u64,
) -> Collected<u32> {
    begun.fetch_add(1, Ordering::SeqCst);
    match machine.wait_collect(rt, tag(request)) {
        Ok(collected) => collected,
        Err(_) => Collected::Waiting,
    }
}

/// Goes on when so many have begun to wait and have had the time to fall asleep: whoever acts then has to wake them.
fn lets_them_sleep(threads: &impl Wait, machine: &Machine<Plain>, begun: &AtomicU64, count: u64) {
    for _ in 0..10_000_000 {
        if begun.load(Ordering::SeqCst) >= count {
            break;
        }
        thread::yield_now();
    }
    for _ in 0..LOOKS {
        machine.removable(threads);
        thread::yield_now();
    }
}

/// Posts the machine's first two requests.
fn calls_twice<P: Posting>(rt: &impl Abort, threads: &impl Wait, port: &mut P) {
    for number in 1..3 {
        let posted = port.post_one(threads, Entry::Call, 0);
        holds(rt, "the request's number", posted == Some(number));
    }
}

/// What is shared with the threads that wait: the machine, and how many have begun to.
type Shared = (Arc<Machine<Plain>>, Arc<AtomicU64>);

/// The same for one thread more.
fn shared(rt: &impl Abort, of: &Shared) -> Shared {
    let machine = Arc::try_clone(&of.0).expect(rt, "an owner");
    (machine, Arc::try_clone(&of.1).expect(rt, "an owner"))
}

#[test]
fn one_waits_for_a_reply_and_another_for_the_end(rt: HostRuntime) {
    let threads = rt;
    let rt = Host::with_memory(rt);
    let begun = Arc::new(rt.alloc(), AtomicU64::new(0)).expect(&rt, "a count");
    let ours = (begun_shared(&rt, rt.alloc()), begun);
    let mut port = port(&rt, &threads, &ours.0);
    calls_twice(&rt, &threads, &mut port);
    let theirs = shared(&rt, &ours);
    let first = thread::spawn(&threads, move || waits(&threads, &theirs.0, &theirs.1, 1));
    let theirs = shared(&rt, &ours);
    let second = thread::spawn(&threads, move || waits(&threads, &theirs.0, &theirs.1, 2));
    lets_them_sleep(&threads, &ours.0, &ours.1, 2);
    let replied = ours.0.reply(&threads, tag(1), 60);
    holds(&rt, "the reply is taken", replied == Ok(true));
    let first = first.expect(&rt, "a thread").join(&threads);
    holds(&rt, "the first reply", first == Collected::Reply(60));
    lets_them_sleep(&threads, &ours.0, &ours.1, 2);
    let stopped = ours.0.stop(&threads, 3);
    holds(&rt, "the last word", stopped == Ok(7));
    let second = second.expect(&rt, "a thread").join(&threads);
    holds(&rt, "the reason", second == Collected::Stopped(3));
    holds(&rt, "it can be removed", ours.0.removable(&threads));
    drop(port);
    drop(ours);
    rt.end_with_memory();
}

/// Looks at the last casts: one more through the port of a thread that has ended, and one through a new port, after two
/// hundred casts through two ports, of which one was dropped.
fn are_the_last<P: Posting>(rt: &impl Abort, threads: &impl Wait, mut second: P, mut third: P) {
    let cast = second.post_one(threads, Entry::Cast, 10);
    holds(rt, "the number 201", cast == Some(201));
    let cast = third.post_one(threads, Entry::Cast, 12);
    holds(rt, "the number 202", cast == Some(202));
    let seen = got(rt, "a look", third.glance(threads));
    holds(rt, "one is the new port's", seen.mine == 1);
    holds(rt, "there are 202 entries", seen.entries == 202);
    holds(rt, "the new port has posted 1", seen.count == 1);
    let seen = got(rt, "a look", second.glance(threads));
    holds(rt, "the old port has posted 101", seen.count == 101);
    drop(third);
    drop(second);
}

#[test]
fn a_port_that_is_dropped_harms_nobody(rt: HostRuntime) {
    let threads = rt;
    let rt = Host::with_memory(rt);
    let machine = begun_shared(&rt, rt.alloc());
    let first = port(&rt, &threads, &machine);
    let second = port(&rt, &threads, &machine);
    let child = thread::spawn(&threads, move || cast_hundred(&threads, second, 10));
    drop(cast_hundred(&threads, first, 11));
    let second = child.expect(&rt, "a thread").join(&threads);
    let third = port(&rt, &threads, &machine);
    are_the_last(&rt, &threads, second, third);
    drop(machine);
    rt.end_with_memory();
}
