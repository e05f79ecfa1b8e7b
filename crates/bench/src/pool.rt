//! Steps of a pool of machines and one worker.
use crate::drive::started;
use crate::load::{Load, Work};
use st_core::{Core, Entry, MachineId, Refusal, Refused};
use st_pool_core::{PoolWorld, Step, StepAnswer};
use std::alloc::Global;

/// The one worker.
const WORKER: usize = 1;

/// The shared run queue.
const SHARED: usize = 0;

/// So many machines, numbered from 0 on.
fn machines(alloc: Global, many: u32) -> Result<Vec<Core<Load>>, Refusal> {
    let mut machines = Vec::new(alloc);
    for slot in 0..many {
        let id = MachineId {
            slot: slot as usize,
            serial: 1,
        };
        if let Some(core) = started(alloc, Load, id, &0)? {
            if machines.push(core).is_err() {
                return Err(Refusal::NoMemory);
            }
        }
    }
    Ok(machines)
}

/// Four steps: a cast comes to a machine, its token goes to the shared run queue, the worker takes it, and serves the
/// machine. It answers how many turns handled an event.
fn cast_and_serve(world: &mut PoolWorld<Load>, id: MachineId) -> Result<u64, Refusal> {
    let answer = world.step(Step::Post(id, Entry::Cast, Work::Keep));
    let StepAnswer::Posted {
        wake: Some(token),
        ..
    } = answer
    else {
        return Ok(0);
    };
    world.step(Step::Give(token, SHARED));
    world.step(Step::Take(WORKER, SHARED));
    match world.step(Step::Turn(WORKER, 0)) {
        StepAnswer::Turned(_) => Ok(1),
        _ => Ok(0),
    }
}

/// A pool of so many machines is told four steps for each of so many events, at each machine in turn, and the turns are
/// counted that handled one.
pub fn play(alloc: Global, count: u32, many: u32) -> Result<u64, Refusal> {
    let cores = machines(alloc, many)?;
    let mut world = match PoolWorld::new(alloc, WORKER, cores) {
        Ok(world) => world,
        Err(Refused { refusal, .. }) => return Err(refusal),
    };
    let mut turns = 0u64;
    for event in 0..count {
        let id = MachineId {
            slot: (event % many.max(1)) as usize,
            serial: 1,
        };
        turns = turns.saturating_add(cast_and_serve(&mut world, id)?);
    }
    Ok(turns)
}
