//! Bells which set, set anew and cancel the time-outs of each other.
use super::bell::Order;
use super::bells::Bells;
use super::host::{holds, same};
use super::ids::id_at;
use super::patience::{Threads, now};
use super::rung::{awaits_rings, came, is_not_early};
use st_core::Time;
use st_wake::{Wake, schedule};
use std::process::Abort;

/// What the bell before it tells a bell, by its place: at once, soon, not to ring, and a little later.
fn told(place: usize) -> Time {
    match place % 4 {
        0 => Time::After(0),
        1 => Time::After(30),
        2 => Time::Infinity,
        _ => Time::After(50),
    }
}

/// How often a bell rings that is told so, and how many of its time-outs come by a tick: one of no time needs none.
fn wanted(place: usize) -> (u32, u64) {
    match place % 4 {
        0 => (1, 0),
        2 => (0, 0),
        _ => (1, 1),
    }
}

/// Casts an order to the bell of a place, which is scheduled.
fn tells<R: Threads, B: Bells, W: Wake>(
    rt: &impl Abort,
    threads: R,
    bells: &B,
    wake: &W,
    place: usize,
    order: Order,
) {
    let token = bells.post(rt, id_at(place), order);
    let left = schedule(&threads, wake, token);
    holds(rt, "its token is scheduled", left == None);
}

/// Each of so many bells tells the next one, and the last one the first.
fn tell_each<R: Threads, B: Bells, W: Wake>(
    rt: &impl Abort,
    threads: R,
    bells: &B,
    wake: &W,
    count: usize,
) {
    for place in 0..count {
        let last = if place == 0 { count - 1 } else { place - 1 };
        let order = Order::Tell(id_at(place), told(place));
        tells(rt, threads, bells, wake, last, order);
    }
}

/// Waits until each of so many bells rang as often as it is to.
fn ring_each<R: Threads, B: Bells>(rt: &impl Abort, threads: R, bells: &B, count: usize) {
    for place in 0..count {
        awaits_rings(rt, threads, bells, place, wanted(place).0);
    }
}

/// So many bells tell each other when to ring, and ring.
pub fn ring_in_turn<R: Threads, B: Bells, W: Wake>(
    rt: &impl Abort,
    threads: R,
    bells: &B,
    wake: &W,
    count: usize,
) {
    let start = now(rt, &threads);
    tell_each(rt, threads, bells, wake, count);
    ring_each(rt, threads, bells, count);
    // A quarter of them ring 50 milliseconds after they were told. A moment is cut to whole milliseconds, so a time-out may
    // come up to one before its time.
    is_not_early(rt, threads, start, 49);
}

/// Each of so many bells has rung as often as it was to, and as many of its time-outs came by a tick.
pub fn have_rung<R: Threads, B: Bells>(rt: &impl Abort, threads: R, bells: &B, count: usize) {
    ring_each(rt, threads, bells, count);
    for place in 0..count {
        let came = came(rt, bells, id_at(place));
        same(rt, "so many time-outs", &came, &wanted(place).1);
    }
}
