//! What a pool's workers make of a hall's machines.
ghost use Rattle.std.specs.Prelude.{◌≤◌};

use crate::halls::{filled, pool, turns};
use crate::load::{Load, Work};
use st_client::{Wake, cast};
use st_core::Refusal;
use st_hall::{Hall, Port};
use st_pool::{Pool, Runtime};
use std::alloc::Global;
use std::sync::{Arc, Wait};

/// Casts once through each port: its machine is to insert so many events.
fn insert_each<R: Wait, W: Wake>(
    rt: &R,
    wake: &W,
    ports: &mut Vec<Port<Load>>,
    count: u32,
) -> Result<(), Refusal> {
    for port in ports.iter_mut() {
        if let Err(refused) = cast(rt, port, wake, Work::InsertMany(count)) {
            return Err(refused.refusal);
        }
    }
    Ok(())
}

/// How many entries the journals of the machines of some ports have.
fn entries<R: Wait>(rt: &R, ports: &mut Vec<Port<Load>>) -> Result<u64, Refusal> {
    let mut entries = 0u64;
    for port in ports.iter_mut() {
        entries = entries.saturating_add(port.look(rt)?.entries);
    }
    Ok(entries)
}

/// Casts through the first port, if there is one.
fn cast_first<R: Wait, W: Wake>(
    rt: &R,
    wake: &W,
    ports: &mut Vec<Port<Load>>,
    work: Work,
) -> Result<(), Refusal> {
    if let Some(port) = ports.first_mut() {
        if let Err(refused) = cast(rt, port, wake, work) {
            return Err(refused.refusal);
        }
    }
    Ok(())
}

/// Begins a message through the first port, and answers how many entries the journals have once all tokens rest.
fn pass_round<R: Runtime>(
    rt: &R,
    pool: &mut Pool<R, Work>,
    ports: &mut Vec<Port<Load>>,
    work: Work,
) -> Result<u64, Refusal> {
    let scheduler = pool.scheduler()?;
    let cast = cast_first(rt, &scheduler, ports, work);
    drop(scheduler);
    cast?;
    turns(pool)?;
    entries(rt, ports)
}

/// So many workers pass a message on that begins at the first port. It answers how many entries the journals have then.
fn pass_in_pool<R: Runtime>(
    rt: R,
    alloc: Global,
    workers: usize,
    hall: &Arc<Hall<Load, R>>,
    ports: &mut Vec<Port<Load>>,
    work: Work,
) -> Result<u64, Refusal>
    requires { (1 ≤ workers) × (workers ≤ 16) }
{
    let mut pool = pool(rt, alloc, workers, hall)?;
    let passed = pass_round(&rt, &mut pool, ports, work);
    drop(pool);
    passed
}

/// So many workers hand a message round a ring of so many machines, so often. It answers how many entries the journals
/// have then: three a message, for it is posted, handled and passed on, and two for that which begins it.
pub fn pass_by_workers<R: Runtime>(
    rt: R,
    alloc: Global,
    workers: usize,
    count: u32,
    many: u32,
) -> Result<u64, Refusal>
    requires { (1 ≤ workers) × (workers ≤ 16) }
{
    let (hall, mut ports) = filled(rt, alloc, many)?;
    let work = Work::Pass(count, 0, many.saturating_sub(1));
    let passed = pass_in_pool(rt, alloc, workers, &hall, &mut ports, work);
    drop(ports);
    drop(hall);
    passed
}

/// Casts once through each port, and answers how many turns were made once all tokens rest.
fn insert_round<R: Runtime>(
    rt: &R,
    pool: &mut Pool<R, Work>,
    ports: &mut Vec<Port<Load>>,
    count: u32,
) -> Result<u64, Refusal> {
    let scheduler = pool.scheduler()?;
    let inserted = insert_each(rt, &scheduler, ports, count);
    drop(scheduler);
    inserted?;
    turns(pool)
}

/// So many workers serve machines, each of which is to insert so many events. It answers how many turns they made.
fn insert_in_pool<R: Runtime>(
    rt: R,
    alloc: Global,
    workers: usize,
    hall: &Arc<Hall<Load, R>>,
    ports: &mut Vec<Port<Load>>,
    count: u32,
) -> Result<u64, Refusal>
    requires { (1 ≤ workers) × (workers ≤ 16) }
{
    let mut pool = pool(rt, alloc, workers, hall)?;
    let inserted = insert_round(&rt, &mut pool, ports, count);
    drop(pool);
    inserted
}

/// So many workers serve so many machines, each of which handles an event that inserts so many others, and those. It
/// answers how many turns the workers made.
pub fn insert_by_workers<R: Runtime>(
    rt: R,
    alloc: Global,
    workers: usize,
    count: u32,
    many: u32,
) -> Result<u64, Refusal>
    requires { (1 ≤ workers) × (workers ≤ 16) }
{
    let (hall, mut ports) = filled(rt, alloc, many)?;
    let inserted = insert_in_pool(rt, alloc, workers, &hall, &mut ports, count);
    drop(ports);
    drop(hall);
    inserted
}
