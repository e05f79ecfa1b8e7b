//! Rounds of a worker, whose turns do nothing.
use crate::restless::Restless;
use crate::silent::Silent;
use st_core::{MachineId, Refusal};
use st_pool::{Token, Worker};
use st_runq::{Inlet, Seats};
use std::alloc::Global;
use std::sync::Wait;

/// A worker, the only one, on whose own run queue so many tokens stand.
pub fn worker<C: Drop>(alloc: Global, tokens: u32) -> Result<Option<Worker<C>>, Refusal> {
    let inlet = Inlet::new(alloc)?;
    let Some(seats) = Seats::for_workers(alloc, &inlet, 1)?.pop() else {
        return Ok(None);
    };
    let mut worker = Worker::new(0, seats);
    for slot in 0..tokens {
        let machine = MachineId {
            slot: slot as usize,
            serial: 1,
        };
        if worker.lane.put_local(Token { machine, wake: 0 }).is_err() {
            return Err(Refusal::NoMemory);
        }
    }
    Ok(Some(worker))
}

/// Makes so many rounds, and counts those that served a token.
fn make_each<R: Wait>(rt: &R, worker: &mut Worker<u32>, count: u32) -> u64 {
    let mut served = 0u64;
    for _ in 0..count {
        if worker.transit.woken.is_none() && worker.round(rt, &Restless, &Silent) {
            served = served.saturating_add(1);
        }
    }
    served
}

/// A worker makes so many rounds, while so many tokens stand on its own run queue, and those are counted that served one.
pub fn rounds<R: Wait>(rt: &R, alloc: Global, count: u32, tokens: u32) -> Result<u64, Refusal> {
    match worker(alloc, tokens)? {
        Some(mut worker) => Ok(make_each(rt, &mut worker, count)),
        None => Ok(0),
    }
}
