//! A clock that may be read so many times.
use std::io;
use std::process::Abort;
use std::rt::Clock;
use std::sync::Wait;
use std::sync::atomic::{AtomicU64, Ordering};
use std::time::Duration;

/// How often it may be read.
const READINGS: u64 = 1_000;

/// The system's clock. Whoever reads it too often waits in vain, and that ends the test.
#[derive(Drop)]
pub struct Timed<R> {
    rt: R,
    readings: AtomicU64,
}

impl<R> Timed<R> {
    /// It was not read yet.
    pub fn new(rt: R) -> Timed<R> {
        Timed {
            rt,
            readings: AtomicU64::new(0),
        }
    }
}

impl<R: Wait> Wait for Timed<R> {}

impl<R: Clock + Abort> Clock for Timed<R> {
    fn monotonic(&self) -> io::Result<Duration> {
        let readings = self.readings.fetch_add(1, Ordering::SeqCst);
        assert!(self.rt; readings < READINGS, "it waits in vain");
        self.rt.monotonic()
    }

    fn since_1970(&self) -> io::Result<Duration> {
        self.rt.since_1970()
    }

    fn sleep(&self, duration: Duration) {
        self.rt.sleep(duration)
    }
}
