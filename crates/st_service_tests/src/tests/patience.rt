//! What the threads of these tests carry, and how long a test waits.
use super::host::{got, holds};
use st_service::Runtime;
use std::process::Abort;
use std::random::RandomSource;
use std::rt::Clock;
use std::thread;
use std::time::{Duration, Instant};

/// So many seconds a busy machine may take for what is due within milliseconds.
const PATIENCE: u64 = 40;

/// What the threads of these tests carry.
pub trait Threads: Runtime + Clock + RandomSource {}

impl<R: Runtime + Clock + RandomSource> Threads for R {}

/// The moment, by the system's clock.
pub fn now(rt: &impl Abort, clock: &impl Clock) -> Instant {
    got(rt, "the clock is read", Instant::now(clock))
}

/// Fewer than so many seconds have passed since then.
pub fn is_within(rt: &impl Abort, clock: &impl Clock, start: Instant, seconds: u64) {
    let passed = got(rt, "the clock is read", start.elapsed(clock));
    holds(rt, "it is in time", passed.as_secs() < seconds);
}

/// Not many seconds have passed since then.
pub fn is_in_time(rt: &impl Abort, clock: &impl Clock, start: Instant) {
    is_within(rt, clock, start, PATIENCE);
}

/// A little later; not many seconds have passed since then.
pub fn waits_a_little(rt: &impl Abort, clock: &impl Clock, start: Instant) {
    is_in_time(rt, clock, start);
    thread::sleep(clock, Duration::from_millis(1));
}
