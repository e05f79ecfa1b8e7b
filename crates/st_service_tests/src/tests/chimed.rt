//! Rows of bells are played: where a call finds no memory, it is made again.
use super::bell::Order;
use super::bells::Bells;
use super::chime::Chime;
use super::host::{Host, same};
use super::ids::id_at;
use super::patience::{Threads, now};
use super::rounds::have_rung;
use super::rung::{awaits_coming, awaits_rings, came, is_not_early};
use super::shelf::Shelf;
use st_core::Time;
use st_hall::{MachineId, Refusal, Started, Token};
use st_lock::Next;
use std::process::Abort;
use std::thread;
use std::time::{Duration, Instant};

/// The ticker watches a bell. Where there is no memory, it is watched again.
fn watches<B: Bells>(rt: &Host<impl Abort>, bells: &B, id: MachineId) {
    let mut watched = bells.try_watch(id);
    if watched == Err(Refusal::NoMemory) {
        rt.retry();
        watched = bells.try_watch(id);
    }
    same(rt, "it is watched", &watched, &Ok(()));
}

/// Starts the bell of a place, which is to ring after two times, and watches it. Where there is no memory, it is started again.
pub fn starts<B: Bells>(rt: &Host<impl Abort>, bells: &B, place: usize, times: &(Time, Time)) {
    let id = id_at(place);
    let mut started = bells.try_start(times);
    if started == Err(Refusal::NoMemory) {
        rt.retry();
        started = bells.try_start(times);
    }
    let running = Started::Running { id, wake: None };
    same(rt, "it runs, and has no work", &started, &Ok(running));
    watches(rt, bells, id);
}

/// Starts so many bells, which are the first ones.
fn starts_each<B: Bells>(rt: &Host<impl Abort>, bells: &B, count: usize, time: Time) {
    for place in 0..count {
        starts(rt, bells, place, &(time, Time::Infinity));
    }
}

/// Serves a bell once with an order.
fn serves<B: Bells>(rt: &impl Abort, bells: &B, id: MachineId, order: Order) {
    let token = bells.post(rt, id, order).expect(rt, "it was at rest");
    same(rt, "it rests", &bells.turn(rt, id, token), &Next::Rest);
}

/// Stops a bell, and removes it.
fn removes<B: Bells>(rt: &impl Abort, bells: &B, id: MachineId) {
    let (stopped, removed) = bells.remove(rt, id, 3);
    same(rt, "it ends", &stopped, &Ok(7));
    same(rt, "it is removed", &removed, &Ok(()));
}

/// Waits until a shelf has refused a token twice, at least, of as many as can be counted.
fn awaits_refusals<R: Threads>(threads: R, shelf: &Shelf) {
    for _ in threads.forever() {
        if shelf.refusals() < u64::MAX - 1 {
            break;
        }
        thread::yield_now();
    }
}

/// The first token that a bell is issued.
pub fn first_token(place: usize) -> Token {
    Token {
        machine: id_at(place),
        wake: 1,
    }
}

/// Plays a row that waits, or looks at the time.
fn awaits<R: Threads, B: Bells>(
    rt: &impl Abort,
    threads: R,
    bells: &B,
    shelf: &Shelf,
    start: Instant,
    row: &Chime,
) {
    match row {
        Chime::AwaitsRings(place, times) => awaits_rings(rt, threads, bells, *place, *times),
        Chime::AwaitsComing(place, times) => awaits_coming(rt, threads, bells, *place, *times),
        Chime::HaveRung(count) => have_rung(rt, threads, bells, *count),
        Chime::Sleeps(time) => thread::sleep(&threads, Duration::from_millis(*time)),
        Chime::IsNotEarly(least) => is_not_early(rt, threads, start, *least),
        Chime::TakesToken(place) => {
            same(rt, "its token", &shelf.take(&threads), &first_token(*place));
        }
        Chime::AwaitsRefusals => awaits_refusals(threads, shelf),
        _ => panic!(rt; "it waits, or looks at the time"),
    }
}

/// Plays a row of bells, and of the shelf that takes their tokens.
fn does<R: Threads, B: Bells>(
    rt: &Host<impl Abort>,
    threads: R,
    bells: &B,
    shelf: &Shelf,
    start: Instant,
    row: &Chime,
) {
    match row {
        Chime::Starts(place, times) => starts(rt, bells, *place, times),
        Chime::StartsEach(count, time) => starts_each(rt, bells, *count, *time),
        Chime::Serves(place, order) => serves(rt, bells, id_at(*place), *order),
        Chime::Removes(place) => removes(rt, bells, id_at(*place)),
        Chime::Forgets(place) => {
            same(
                rt,
                "it is forgotten",
                &bells.try_watch(id_at(*place)),
                &Ok(()),
            );
        }
        Chime::HaveCome(place, times) => {
            same(
                rt,
                "so many time-outs",
                &came(rt, bells, id_at(*place)),
                times,
            );
        }
        Chime::IsToRefuse(count) => same(rt, "refusals", &shelf.refusals(), count),
        _ => awaits(rt, threads, bells, shelf, start, row),
    }
}

/// Plays rows of bells, and of the shelf that takes their tokens.
pub fn plays<R: Threads, B: Bells>(
    rt: &Host<impl Abort>,
    threads: R,
    bells: &B,
    shelf: &Shelf,
    rows: &[Chime],
) {
    let start = now(rt, &threads);
    for (place, row) in rows.iter().enumerate() {
        rt.begins_row(place);
        does(rt, threads, bells, shelf, start, row);
    }
}
