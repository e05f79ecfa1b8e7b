//! A service of lamps: ten are switched on, and an observer counts those that were lit.

use crate::counting::{Counting, counts};
use crate::shutting::stop;
use lamp_module::{Bulb, Lamp, Press};
use st_service::{Journals, Options, Runtime, Service, ServicePort, Spawned};
use std::alloc::{AllocError, Global};
use std::random::RandomSource;
use std::rt::Clock;
use std::sync::Arc;
use std::sync::atomic::{AtomicU64, Ordering};

/// So many events may wait at a lamp, nothing is kept but what the observer was not told yet, and what waits at the end is
/// handled.
const OPTIONS: Options = Options {
    waiting: 100,
    journals: Journals::None,
    turns: 1_000,
};

/// A service of lamps.
type Lamps<R> = Service<Lamp, R, Counting>;

/// Starts a lamp. `None` where it is refused.
fn start<R: Runtime + Clock>(lamps: &Lamps<R>) -> Option<ServicePort<Lamp, R, Counting>> {
    match lamps.spawn(None, Lamp, &Bulb { left: 3 }) {
        Ok(Spawned::Running(_, port)) => port,
        _ => None,
    }
}

/// Starts ten lamps, and switches each on.
fn light<R: Runtime + Clock>(lamps: &Lamps<R>) {
    for _ in 0..10 {
        if let Some(mut port) = start(lamps) {
            // Where it is refused, too many events wait, or there is no memory: this lamp stays dark.
            let _ = port.cast(Press::Switch);
            drop(port);
        }
    }
}

/// Lights ten lamps, and says how many were lit and stopped.
pub fn run<R: Runtime + Clock + RandomSource>(rt: R, alloc: Global) -> Result<String, AllocError> {
    let lit = Arc::new(alloc, AtomicU64::new(0))?;
    let lamps = Service::start(rt, alloc, 4, OPTIONS, counts(&lit)?)?;
    light(&lamps);
    let stopped = stop(lamps)?;
    let lit = lit.load(Ordering::SeqCst);
    Ok(format!(in alloc; "lit {lit} stopped {stopped}\n")?)
}
