//! What waits before a bell.
use super::host::{Host, got, holds, same};
use super::tower::{Carried, builds, cast, tells};
use crate::Wish;
use actor::{Events, Inlet, Served};
use std::process::Abort;

/// Looks that a wish comes back where there is no place for it.
fn comes_back(rt: &impl Abort, threads: impl Carried, inlet: &Inlet<Wish>) {
    let refused = inlet.try_send(&threads, cast(Wish::Ring));
    let back = got(rt, "it is full", refused.err().ok_or(())).into_inner();
    same(rt, "it comes back", &back, &cast(Wish::Ring));
}

/// Looks that one wish waits, and no other.
fn one_waits(rt: &impl Abort, threads: impl Carried, events: &Events<Wish>) {
    let event = got(rt, "it waits", events.try_recv(&threads));
    same(rt, "it is that", &event, &cast(Wish::Hush));
    holds(rt, "no other", events.try_recv(&threads).is_err());
}

#[test]
fn a_full_channel_refuses_and_takes_again(rt: HostRuntime) {
    let threads = rt;
    let rt = Host::with_memory(rt);
    let (inlet, mut tower) = builds(&rt, threads, 2);
    tells(&rt, threads, &inlet, Wish::Part);
    tells(&rt, threads, &inlet, Wish::Hush);
    comes_back(&rt, threads, &inlet);
    same(
        &rt,
        "it ends",
        &tower.serves(&rt, threads),
        &Served::Ended(7, 0),
    );
    tells(&rt, threads, &inlet, Wish::Ring);
    tower.told(&rt, 1, 0);
    drop(inlet);
    drop(tower);
    rt.end_with_memory();
}

#[test]
fn what_waits_at_the_end_is_still_there(rt: HostRuntime) {
    let threads = rt;
    let rt = Host::with_memory(rt);
    let (inlet, mut tower) = builds(&rt, threads, 2);
    tells(&rt, threads, &inlet, Wish::Part);
    tells(&rt, threads, &inlet, Wish::Hush);
    same(
        &rt,
        "it ends",
        &tower.serves(&rt, threads),
        &Served::Ended(7, 0),
    );
    same(
        &rt,
        "it has ended",
        &tower.serves(&rt, threads),
        &Served::Ended(7, 0),
    );
    one_waits(&rt, threads, &tower.events);
    drop(inlet);
    drop(tower);
    rt.end_with_memory();
}
