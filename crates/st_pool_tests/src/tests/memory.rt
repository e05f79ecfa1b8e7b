//! A pool where one allocation is refused: nothing is lost, nobody hangs, and the call is made again.
use super::counted::Counted;
use super::flood::Flood;
use super::host::{Host, is_number};
use super::silent::Silent;
use super::started::{are_left, closes, leaves_all, schedules, started};
use st_pool::{Pool, Runtime};
use std::alloc::Global;
use std::process::Abort;
use std::sync::Arc;
use std::thread;

/// Machines that never rest. Where there is no memory, they are made again.
fn endless(rt: &Host<impl Abort>, alloc: Global, count: usize) -> Arc<Counted> {
    match Counted::endless(alloc, count) {
        Ok(machines) => machines,
        Err(_) => {
            rt.retry();
            Counted::endless(alloc, count).expect(rt, "one allocation alone is refused")
        }
    }
}

/// A gate at which nobody waits. Where there is no memory, it is made again.
fn silent(rt: &Host<impl Abort>, alloc: Global) -> Arc<Silent> {
    match Silent::new(alloc) {
        Ok(gate) => gate,
        Err(_) => {
            rt.retry();
            Silent::new(alloc).expect(rt, "one allocation alone is refused")
        }
    }
}

#[test]
fn a_refused_call_loses_no_token(rt: HostRuntime) {
    let threads = rt;
    let rt = Host::new(rt);
    let machines = endless(&rt, rt.alloc(), 200);
    let gate = silent(&rt, rt.alloc());
    let mut pool = started(&rt, threads, 3, &machines, &gate);
    leaves_all(&rt, &mut pool, 200);
    rt.end();
}

/// Machines of which one wakes so many others. Where there is no memory, they are made again.
fn flood(rt: &Host<impl Abort>, alloc: Global, most: u64) -> Arc<Flood> {
    match Flood::new(alloc, most) {
        Ok(machines) => machines,
        Err(_) => {
            rt.retry();
            Flood::new(alloc, most).expect(rt, "one allocation alone is refused")
        }
    }
}

/// Waits until so many are woken, or gives up.
pub fn waits_until_woken(machines: &Flood, count: u64) {
    for _ in 0..1_000_000 {
        if machines.woken() == count {
            return;
        }
        thread::yield_now();
    }
}

#[test]
fn a_woken_token_that_finds_no_room_is_not_lost(rt: HostRuntime) {
    let threads = rt;
    let rt = Host::new(rt);
    let machines = flood(&rt, rt.alloc(), 200);
    let gate = silent(&rt, rt.alloc());
    let mut pool = started(&rt, threads, 2, &machines, &gate);
    leaves_what_was_woken(&rt, &mut pool, &machines);
    rt.end();
}

/// Of two hundred machines each is woken, and they are left with the one that woke them.
fn leaves_what_was_woken<R: Runtime>(
    rt: &Host<impl Abort>,
    pool: &mut Pool<R, u64>,
    machines: &Flood,
) {
    schedules(rt, pool, 0, 1);
    waits_until_woken(machines, 200);
    let end = closes(rt, pool);
    let woken = machines.woken();
    let left = (woken as usize).saturating_add(1);
    are_left(rt, &end, left);
    is_number(rt, "all were woken", woken, 200);
}
