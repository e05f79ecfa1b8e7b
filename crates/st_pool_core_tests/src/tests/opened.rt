//! How a pool of a test is opened.
ghost use Rattle.std.specs.Prelude.{◌≤◌, ◌<◌, ◌^◌};

use super::host::{Host, got, holds};
use super::plain::Plain;
use st_core::{Core, MachineId, Refusal, Start};
use st_pool_core::PoolWorld;
use std::alloc::Global;
use std::process::Abort;

/// The id of the machine in this place, from 0 on. Each serial is one more than the place.
pub fn machine_id(slot: usize) -> MachineId {
    MachineId {
        slot,
        serial: (slot as u64).saturating_add(1),
    }
}

/// A call was refused for want of memory, and is made again.
pub fn is_made_again(rt: &Host<impl Abort>, refusal: Refusal) {
    holds(rt, "memory was refused", refusal == Refusal::NoMemory);
    rt.retry();
}

/// An empty vector with places reserved. Where memory was refused, it is asked for again.
pub fn with_reserved<T>(rt: &Host<impl Abort>, alloc: Global, count: usize) -> Vec<T> {
    match Vec::with_capacity(alloc, count) {
        Ok(elements) => elements,
        Err(_) => {
            rt.retry();
            Vec::with_capacity(alloc, count).expect(rt, "one allocation alone is refused")
        }
    }
}

/// An element goes behind others, for which a place is reserved.
pub fn add<T: Drop>(rt: &impl Abort, all: &mut Vec<T>, element: T) {
    all.push(element).expect(rt, "a place is reserved");
}

/// Makes the call of a start, whose first event gets this number.
fn start_once(alloc: Global, id: MachineId, first: u64) -> Result<Start<Plain>, Refusal>
    requires least { 1 ≤ first }
    requires greatest { first < 2 ^ 63 }
{
    match Core::start_from(alloc, Plain, id, &(), 0, first) {
        Ok(started) => Ok(started),
        Err(refused) => Err(refused.refusal),
    }
}

/// Makes the call of a start, whose first event gets this number. Where it finds no memory, it is made again.
fn start(rt: &Host<impl Abort>, alloc: Global, id: MachineId, first: u64) -> Start<Plain>
    requires least { 1 ≤ first }
    requires greatest { first < 2 ^ 63 }
{
    match start_once(alloc, id, first) {
        Ok(started) => started,
        Err(refusal) => {
            holds(rt, "it is started", refusal == Refusal::NoMemory);
            rt.retry();
            got(rt, "it is started", start_once(alloc, id, first))
        }
    }
}

/// The machine that was started.
fn running(rt: &impl Abort, started: Start<Plain>) -> Core<Plain> {
    let Start::Running(core, report) = started else {
        panic!(rt; "there is no machine")
    };
    drop(report);
    core
}

/// Machines of these ids.
pub fn cores(rt: &Host<impl Abort>, alloc: Global, ids: &[MachineId]) -> Vec<Core<Plain>> {
    cores_from(rt, alloc, ids, 1)
}

/// Machines of these ids, of each of which the first event gets this number.
pub fn cores_from(
    rt: &Host<impl Abort>,
    alloc: Global,
    ids: &[MachineId],
    first: u64,
) -> Vec<Core<Plain>>
    requires least { 1 ≤ first }
    requires greatest { first < 2 ^ 63 }
{
    let mut cores = with_reserved(rt, alloc, ids.len());
    for id in ids {
        let started = start(rt, alloc, *id, first);
        add(rt, &mut cores, running(rt, started));
    }
    cores
}

/// What has a machine's id. It is looked at with no contract of the machine at hand, which makes the proof short.
pub trait Identified {
    /// The id.
    fn own_id(&self) -> MachineId;
}

impl Identified for Core<Plain> {
    fn own_id(&self) -> MachineId {
        self.id()
    }
}

/// Looks that these machines have these ids.
pub fn are_of<T: Identified>(rt: &impl Abort, cores: &[T], ids: &[MachineId]) {
    holds(rt, "how many machines", cores.len() == ids.len());
    for (place, core) in cores.iter().enumerate() {
        let is_its_own = ids.get(place) == Some(&core.own_id());
        holds(rt, "the machine's id", is_its_own);
    }
}

/// A pool of so many workers and these machines, whose ids these are. Where memory was refused, the machines come
/// back, and the call is made again.
pub fn opened_with(
    rt: &Host<impl Abort>,
    alloc: Global,
    workers: usize,
    cores: Vec<Core<Plain>>,
    ids: &[MachineId],
) -> PoolWorld<Plain> {
    match PoolWorld::new(alloc, workers, cores) {
        Ok(pool) => pool,
        Err(refused) => {
            is_made_again(rt, refused.refusal);
            are_of(rt, refused.value.as_slice(), ids);
            let again = PoolWorld::new(alloc, workers, refused.value);
            got(rt, "one allocation alone is refused", again)
        }
    }
}

/// A pool of so many workers and machines of these ids, in which nothing was done.
pub fn opened(
    rt: &Host<impl Abort>,
    alloc: Global,
    workers: usize,
    ids: &[MachineId],
) -> PoolWorld<Plain> {
    let cores = cores(rt, alloc, ids);
    opened_with(rt, alloc, workers, cores, ids)
}
