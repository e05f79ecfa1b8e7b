//! Each call finds no memory once, and is made again.
use super::bell::Bell;
use super::host::{Host, got, holds, same};
use super::notes::Notes;
use super::tower::{Carried, ID, running, tells};
use crate::Wish;
use actor::{Core, Events, Inlet, Observer, Refusal, Served, Unserved, channel, serve};
use std::alloc::Global;
use std::process::Abort;
use std::sync::Arc;
use std::sync::atomic::AtomicU64;
use std::thread;
use std::time::{Duration, Instant};

/// Notes, with their owners' count.
fn notes(rt: &Host<impl Abort>, alloc: Global) -> Notes {
    for _ in 0..2 {
        match Arc::new(alloc, AtomicU64::new(0)) {
            Ok(hushed) => return Notes::new(hushed),
            Err(_) => rt.retry(),
        }
    }
    panic!(rt; "one allocation alone is refused")
}

/// A channel. Where there is no memory, it is made again.
fn opens(rt: &Host<impl Abort>, alloc: Global) -> (Inlet<Wish>, Events<Wish>) {
    for _ in 0..2 {
        match channel(alloc, 8) {
            Ok(ends) => return ends,
            Err(refusal) => {
                same(rt, "there was no memory", &refusal, &Refusal::NoMemory);
                rt.retry();
            }
        }
    }
    panic!(rt; "one allocation alone is refused")
}

/// A bell. Where there is no memory, it begins again.
fn begins(rt: &Host<impl Abort>, alloc: Global) -> Box<Core<Bell>> {
    for _ in 0..2 {
        match Core::start(alloc, Bell, ID, &(), 0) {
            Ok(started) => return rt.boxed(alloc, running(rt, started)),
            Err(refused) => {
                let refusal = refused.refusal;
                drop(refused);
                same(rt, "there was no memory", &refusal, &Refusal::NoMemory);
                rt.retry();
            }
        }
    }
    panic!(rt; "one allocation alone is refused")
}

/// What could not be posted is posted.
fn goes_on(rt: &Host<impl Abort>, bell: &mut Core<Bell>, unserved: Unserved<Wish>) {
    same(
        rt,
        "there was no memory",
        &unserved.refusal,
        &Refusal::NoMemory,
    );
    rt.retry();
    if let Some(event) = unserved.event {
        holds(
            rt,
            "it is posted",
            bell.post(event.entry, event.content).is_ok(),
        );
    }
}

/// A bell is served until nobody sends any more. Where there is no memory, it is served again.
fn serves<R: Carried>(
    rt: &Host<impl Abort>,
    threads: R,
    bell: &mut Core<Bell>,
    events: &Events<Wish>,
    start: &Instant,
    notes: &mut Notes,
) {
    for _ in 0..2 {
        match serve(&threads, bell, events, start, notes) {
            Ok(served) => {
                same(rt, "nobody sends", &served, &Served::Left);
                return;
            }
            Err(unserved) => goes_on(rt, bell, unserved),
        }
    }
    panic!(rt; "one allocation alone is refused")
}

/// Sends wishes, and then no more.
fn tells_each<R: Carried>(rt: &Host<impl Abort>, threads: R, inlet: Inlet<Wish>) {
    for wish in [Wish::Tell, Wish::Hush, Wish::Ring, Wish::Tell] {
        tells(rt, threads, &inlet, wish);
    }
}

/// A bell is served, and served again when it has rung.
fn serves_twice<R: Carried>(
    rt: &Host<impl Abort>,
    threads: R,
    bell: &mut Core<Bell>,
    events: &Events<Wish>,
    start: &Instant,
    notes: &mut Notes,
) {
    serves(rt, threads, bell, events, start, notes);
    thread::sleep(&threads, Duration::from_millis(21));
    serves(rt, threads, bell, events, start, notes);
    same(rt, "reports", &notes.reports, &5);
    same(rt, "messages", &notes.messages, &2);
    same(rt, "it rang", bell.data(), &1);
}

/// Each call, in turn.
fn goes_through<R: Carried>(rt: &Host<impl Abort>, threads: R, alloc: Global) {
    let start = got(rt, "the clock is read", Instant::now(&threads));
    let mut notes = notes(rt, alloc);
    let (inlet, events) = opens(rt, alloc);
    let mut bell = begins(rt, alloc);
    tells_each(rt, threads, inlet);
    serves_twice(rt, threads, &mut bell, &events, &start, &mut notes);
    drop(bell);
    drop(events);
    drop(notes);
}

#[test]
fn a_machine_finds_no_memory_once(rt: HostRuntime) {
    let threads = rt;
    let rt = Host::new(rt);
    goes_through(&rt, threads, rt.alloc());
    rt.end();
}
