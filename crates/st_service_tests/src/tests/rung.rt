//! What is seen of bells that rang, and of their time-outs.
use super::bell::Order;
use super::bells::Bells;
use super::host::{got, holds};
use super::ids::id_at;
use super::patience::{Threads, now, waits_a_little};
use st_hall::MachineId;
use st_lock::{Answer, Command, JournalEntry};
use std::process::Abort;
use std::time::Instant;

/// Waits until a bell rang so often. That it does within some seconds is tested.
pub fn awaits_rings<R: Threads, B: Bells>(
    rt: &impl Abort,
    threads: R,
    bells: &B,
    place: usize,
    times: u32,
) {
    let start = now(rt, &threads);
    for _ in threads.forever() {
        if bells.see(rt, id_at(place)).0 == times {
            break;
        }
        waits_a_little(rt, &threads, start);
    }
}

/// How many time-outs expired by an entry, if it is a tick.
fn expired(entry: &JournalEntry<u32, Order>) -> Option<u64> {
    match (&entry.command, &entry.answer) {
        (Command::Tick(_), Answer::Tick(Ok(expired))) => Some(*expired),
        _ => None,
    }
}

/// How many time-outs came by the ticks among some entries.
fn came_by(rt: &impl Abort, entries: &[JournalEntry<u32, Order>]) -> u64 {
    let mut came = 0u64;
    for entry in entries {
        if let Some(expired) = expired(entry) {
            holds(rt, "a time-out was due", expired > 0);
            came = came.saturating_add(expired);
        }
    }
    came
}

/// How many time-outs of a bell came. Each tick found one that was due by the moment that it told.
pub fn came<B: Bells>(rt: &impl Abort, bells: &B, id: MachineId) -> u64 {
    let journal = bells.journal(rt, id);
    let came = came_by(rt, journal.entries.as_slice());
    drop(journal);
    came
}

/// Waits until so many time-outs of a bell came. That they do within some seconds is tested.
pub fn awaits_coming<R: Threads, B: Bells>(
    rt: &impl Abort,
    threads: R,
    bells: &B,
    place: usize,
    times: u64,
) {
    let start = now(rt, &threads);
    for _ in threads.forever() {
        if came(rt, bells, id_at(place)) == times {
            break;
        }
        waits_a_little(rt, &threads, start);
    }
}

/// So many milliseconds have passed since then, by the system's clock and not by the ticker's moments.
pub fn is_not_early<R: Threads>(rt: &impl Abort, threads: R, start: Instant, least: u128) {
    let passed = got(rt, "the clock is read", start.elapsed(&threads));
    holds(rt, "it is not early", passed.as_millis() >= least);
}
