//! A test that does not end is ended.
use super::patience::{is_within, now};
use st_service::Runtime;
use std::alloc::Global;
use std::process::Abort;
use std::rt::Clock;
use std::sync::Arc;
use std::sync::atomic::{AtomicBool, Ordering};
use std::thread;
use std::thread::JoinHandle;
use std::time::Duration;

/// So many seconds a test may take.
const PATIENCE: u64 = 8;

/// A thread that ends the test where it takes too long: where memory stays wanting, a service tries again for good.
#[derive(Drop)]
pub struct Watchdog {
    thread: JoinHandle<()>,
    is_off: Arc<AtomicBool, Global>,
}

/// Waits until it is called off. That this is within some seconds is tested by the clock: on a busy machine a sleep takes long.
fn watch<R: Runtime + Clock + Abort>(rt: R, is_off: &AtomicBool) {
    let start = now(&rt, &rt);
    for _ in rt.forever() {
        if is_off.load(Ordering::SeqCst) {
            break;
        }
        is_within(&rt, &rt, start, PATIENCE);
        thread::sleep(&rt, Duration::from_millis(10));
    }
}

impl Watchdog {
    /// It watches from now on.
    pub fn start<R: Runtime + Clock + Abort>(rt: R, alloc: Global) -> Option<Watchdog> {
        let is_off = Arc::new(alloc, AtomicBool::new(false)).ok()?;
        let theirs = Arc::try_clone(&is_off).ok()?;
        let thread = thread::spawn(&rt, move || watch(rt, &*theirs)).ok()?;
        Some(Watchdog { thread, is_off })
    }

    /// It is called off.
    pub fn end<R: Runtime>(self, rt: R) {
        let Watchdog { thread, is_off } = self;
        is_off.store(true, Ordering::SeqCst);
        thread.join(&rt);
    }
}
