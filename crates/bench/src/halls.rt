//! Halls of machines, and pools that serve them.
ghost use Rattle.std.specs.Prelude.{◌≤◌};

use crate::load::{Load, Work};
use crate::silent::Silent;
use st_core::Refusal;
use st_hall::{Hall, Machine, Port, Registry, Started};
use st_pool::{Pool, Runtime};
use std::alloc::Global;
use std::sync::Arc;

/// A hall without machines.
pub fn empty<R: Runtime>(rt: R, alloc: Global) -> Result<Arc<Hall<Load, R>>, Refusal> {
    match Arc::new(alloc, Hall::new(rt, Registry::new(alloc))).ok() {
        Some(hall) => Ok(hall),
        None => Err(Refusal::NoMemory),
    }
}

/// A hall of so many machines, and a port of each.
pub fn filled<R: Runtime>(
    rt: R,
    alloc: Global,
    many: u32,
) -> Result<(Arc<Hall<Load, R>>, Vec<Port<Load>>), Refusal> {
    let hall = empty(rt, alloc)?;
    let mut ports = Vec::new(alloc);
    match fill(&rt, &hall, &mut ports, many) {
        Ok(()) => Ok((hall, ports)),
        Err(refusal) => {
            drop(ports);
            drop(hall);
            Err(refusal)
        }
    }
}

/// Starts so many machines, and puts a port of each behind the others.
fn fill<R: Runtime>(
    rt: &R,
    hall: &Hall<Load, R>,
    ports: &mut Vec<Port<Load>>,
    many: u32,
) -> Result<(), Refusal> {
    for _ in 0..many {
        if let Some(port) = started(rt, hall)? {
            ports.push(port)?;
        }
    }
    Ok(())
}

/// Starts a machine, and opens a port of it.
fn started<R: Runtime>(rt: &R, hall: &Hall<Load, R>) -> Result<Option<Port<Load>>, Refusal> {
    match hall.start(None, Load, &0, 0) {
        Ok(Started::Running { id, .. }) => Ok(Some(Machine::port(&hall.machine(id)?, rt)?)),
        Ok(Started::Ignored) => Ok(None),
        Ok(Started::Stopped(_)) => Ok(None),
        Err(refused) => Err(refused.refusal),
    }
}

/// A pool of so many workers, which serve a hall.
pub fn pool<R: Runtime>(
    rt: R,
    alloc: Global,
    workers: usize,
    hall: &Arc<Hall<Load, R>>,
) -> Result<Pool<R, Work>, Refusal>
    requires { (1 ≤ workers) × (workers ≤ 16) }
{
    let gate = Arc::new(alloc, Silent)?;
    Ok(Pool::start(rt, alloc, workers, hall, &gate)?)
}

/// Waits until all tokens rest, closes a pool, and answers how many turns it made.
pub fn turns<R: Runtime>(pool: &mut Pool<R, Work>) -> Result<u64, Refusal> {
    pool.drain();
    Ok(pool.close()?.turns)
}
