//! Bells that are served.
use super::bell::Bell;
use super::host::{Host, got, holds, same};
use super::tower::{Carried, builds, cast, tells};
use crate::Wish;
use actor::{Entry, Event, Inlet, Served};
use std::alloc::Global;
use std::process::Abort;
use std::sync::Arc;
use std::sync::atomic::{AtomicU64, Ordering};
use std::thread;
use std::time::Duration;

/// So many hundredths of a second a busy machine may take for what is due within milliseconds.
const PATIENCE: u32 = 4_000;

/// How many wishes a thread sends.
const MANY: u32 = 100;

/// Sends so many wishes, one after another, and waits where there is no place.
fn sends_many(threads: impl Carried, inlet: Inlet<Wish>) {
    for _ in 0..MANY {
        let _ = inlet.send(&threads, cast(Wish::Hush));
    }
}

#[test]
fn a_thread_sends_and_each_report_is_told_once_in_order(rt: HostRuntime) {
    let threads = rt;
    let rt = Host::with_memory(rt);
    let (inlet, mut tower) = builds(&rt, threads, 3);
    let client = thread::spawn(&threads, move || sends_many(threads, inlet));
    let client = got(&rt, "a thread", client);
    same(
        &rt,
        "nobody sends",
        &tower.serves(&rt, threads),
        &Served::Left,
    );
    client.join(&threads);
    tower.told(&rt, u64::from(MANY), 0);
    holds(&rt, "in order", tower.notes.is_in_order);
    same(&rt, "nothing waits", &tower.bell.waiting(), &0);
    drop(tower);
    rt.end_with_memory();
}

/// Rings, and waits until the bell is quiet by itself.
fn rings(threads: impl Carried, inlet: Inlet<Wish>, hushed: Arc<AtomicU64, Global>) {
    let _ = inlet.send(&threads, cast(Wish::Ring));
    for _ in 0..PATIENCE {
        if hushed.load(Ordering::SeqCst) != 0 {
            break;
        }
        thread::sleep(&threads, Duration::from_millis(10));
    }
}

#[test]
fn a_time_out_comes_by_itself(rt: HostRuntime) {
    let threads = rt;
    let rt = Host::with_memory(rt);
    let (inlet, mut tower) = builds(&rt, threads, 3);
    let hushed = got(&rt, "a count", Arc::try_clone(&tower.notes.hushed));
    let client = thread::spawn(&threads, move || rings(threads, inlet, hushed));
    let client = got(&rt, "a thread", client);
    same(
        &rt,
        "nobody sends",
        &tower.serves(&rt, threads),
        &Served::Left,
    );
    client.join(&threads);
    tower.told(&rt, 2, 0);
    same(&rt, "it rang once", tower.bell.data(), &1);
    holds(&rt, "not early", tower.bell.latest() >= 20);
    drop(tower);
    rt.end_with_memory();
}

#[test]
fn a_message_leaves_the_machine_also_at_its_end(rt: HostRuntime) {
    let threads = rt;
    let rt = Host::with_memory(rt);
    let (inlet, mut tower) = builds(&rt, threads, 3);
    tells(&rt, threads, &inlet, Wish::Tell);
    tells(&rt, threads, &inlet, Wish::Tell);
    tells(&rt, threads, &inlet, Wish::Part);
    same(
        &rt,
        "it ends",
        &tower.serves(&rt, threads),
        &Served::Ended(7, 0),
    );
    tower.told(&rt, 3, 2);
    holds(&rt, "none is left", !tower.bell.has_message());
    drop(inlet);
    drop(tower);
    rt.end_with_memory();
}
