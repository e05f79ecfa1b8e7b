//! What a pool has to do.
ghost use Rattle.std.specs.Prelude.{◌≤◌};

use super::begun::{fill, hall, mark, ports};
use super::cast::{are_at_rest, casts_each, casts_twice_more};
use super::host::{Host, got, holds};
use super::plain::Plain;
use super::turnstile::Turnstile;
use st_hall::{Hall, Port};
use st_pool::{Pool, Runtime};
use std::process::Abort;
use std::sync::Arc;

/// Casts to each machine of a hall, so many rounds, of one of two contents, in turn; and what comes of it: how many entries
/// each machine made, how many turns are made in all, and whether the machines keep a journal.
#[derive(Clone, Copy)]
pub struct Work {
    pub machines: usize,
    pub rounds: u32,
    pub contents: (u32, u32),
    pub entries: u64,
    pub turns: u64,
    pub keeps: bool,
}

/// Casts all that is to be cast, and closes the pool once it is done. Its workers made as many turns as they have to, and
/// have no token left.
fn is_done<R: Runtime>(
    rt: &impl Abort,
    threads: R,
    pool: &mut Pool<R, u32>,
    ports: &mut Vec<Port<Plain>>,
    work: Work,
) {
    let scheduler = pool.scheduler().expect(rt, "a scheduler");
    for _ in 0..work.rounds {
        casts_each(rt, &threads, ports, &scheduler, work.contents);
    }
    drop(scheduler);
    pool.drain();
    are_at_rest(rt, &threads, ports, work.entries);
    let end = got(rt, "there is memory", pool.close());
    holds(rt, "so many turns", end.turns == work.turns);
    holds(rt, "no token is left", end.left.is_empty());
    drop(end);
}

/// So many workers serve the machines of a hall, and have no token left at last.
fn serves<R: Runtime>(
    rt: &Host<impl Abort + AllocGlobal>,
    threads: R,
    workers: usize,
    hall: &Arc<Hall<Plain, R>>,
    gate: &Arc<Turnstile>,
    work: Work,
)
    requires { (1 ≤ workers) × (workers ≤ 16) }
{
    let mut ports = ports(rt, &threads, hall, work.machines);
    let pool = Pool::start(threads, rt.alloc(), workers, hall, gate);
    let mut pool = rt.boxed(rt.alloc(), pool.expect(rt, "a pool"));
    is_done(rt, threads, &mut pool, &mut ports, work);
    drop(pool);
    casts_twice_more(rt, &threads, &mut ports, u64::from(work.rounds), work.keeps);
    drop(ports);
}

/// So many workers serve a hall's machines, behind a gate that is shut or not. How often somebody waited in vain for the
/// mark of these machines and this gate.
pub fn waits<R: Runtime>(
    rt: &Host<impl Abort + AllocGlobal>,
    threads: R,
    workers: usize,
    is_shut: bool,
    work: Work,
) -> u64
    requires { (1 ≤ workers) × (workers ≤ 16) }
{
    let mark = mark(rt, workers > 1);
    let gate = Turnstile::new(rt.alloc(), &mark, is_shut).expect(rt, "a gate");
    let hall = hall(rt, threads, work.keeps);
    let hall = Arc::new(rt.alloc(), hall).expect(rt, "a hall");
    fill(rt, &*hall, &mark, work.machines);
    serves(rt, threads, workers, &hall, &gate, work);
    drop(hall);
    drop(gate);
    let gave_up = mark.gave_up();
    drop(mark);
    gave_up
}
