//! Pools of threads: each token is served, and what is not served is left.
use super::counted::{Counted, token};
use super::host::{Host, holds, is_count, is_number, same};
use super::silent::Silent;
use super::started::{closes, leaves_all, schedules, started};
use st_pool::{Pool, PoolEnd, PutRefused, Runtime, Scheduler, Wake};
use std::process::Abort;
use std::sync::Wait;
use std::thread;

/// A thousand tokens come in, half of them by a scheduler, and are served.
fn serves_a_thousand<R: Runtime>(
    rt: &Host<impl Abort>,
    wait: &impl Wait,
    pool: &Pool<R, u64>,
    scheduler: &Scheduler,
) {
    schedules(rt, pool, 0, 500);
    for slot in 500..1_000 {
        is_woken(rt, wait, scheduler, slot);
    }
    pool.drain();
}

/// A scheduler wakes the token of a slot.
fn is_woken(rt: &impl Abort, wait: &impl Wait, scheduler: &Scheduler, slot: usize) {
    let woken = scheduler.wake(wait, token(slot));
    same(rt, "each is woken", &woken, &Ok(()));
}

/// Looks that each of so many machines made ten turns.
fn made_ten_turns(rt: &impl Abort, machines: &Counted, count: usize) {
    for slot in 0..count {
        let turns = machines.turns_of(slot);
        is_number(rt, "each makes its ten turns", turns, 10);
    }
}

/// Closes a pool, whose workers made so many turns and left no token.
fn has_made<R: Runtime>(rt: &Host<impl Abort>, pool: &mut Pool<R, u64>, turns: u64) {
    is_end(rt, &closes(rt, pool), turns);
}

/// Looks that so many turns were made, and that no token is left.
fn is_end(rt: &impl Abort, end: &PoolEnd<u64>, turns: u64) {
    is_number(rt, "the workers made all turns", end.turns, turns);
    holds(rt, "none is left", end.left.is_empty());
}

/// Looks that a scheduler wakes none any more.
fn wakes_none(rt: &impl Abort, wait: &impl Wait, scheduler: &Scheduler, word: &str) {
    let late = token(3);
    same(rt, word, &scheduler.wake(wait, late), &Err(late));
}

/// A pool that has served a thousand is closed, and takes no token any more, nor once it is let go.
fn ends<R: Runtime>(
    rt: &Host<impl Abort>,
    wait: &impl Wait,
    mut pool: Pool<R, u64>,
    scheduler: &Scheduler,
) {
    has_made(rt, &mut pool, 10_000);
    wakes_none(rt, wait, scheduler, "a closed pool wakes none");
    let late = token(3);
    let refused = pool.schedule(late);
    same(
        rt,
        "a closed pool schedules none",
        &refused,
        &Err(PutRefused(late)),
    );
    drop(pool);
    wakes_none(rt, wait, scheduler, "a pool that is gone wakes none");
}

#[test]
fn a_thousand_machines_make_ten_turns_each(rt: HostRuntime) {
    let threads = rt;
    let rt = Host::with_memory(rt);
    let machines = Counted::new(rt.alloc(), 1_000, 10).expect(&rt, "machines");
    let gate = Silent::new(rt.alloc()).expect(&rt, "a gate");
    let pool = started(&rt, threads, 4, &machines, &gate);
    let scheduler = pool.scheduler().expect(&rt, "a scheduler");
    serves_a_thousand(&rt, &threads, &pool, &scheduler);
    made_ten_turns(&rt, &machines, 1_000);
    ends(&rt, &threads, pool, &scheduler);
    rt.end_with_memory();
}

/// The token of the first machine is scheduled, and makes its one turn.
fn makes_one_turn<R: Runtime>(rt: &Host<impl Abort>, pool: &Pool<R, u64>, machines: &Counted) {
    machines.begin_anew();
    schedules(rt, pool, 0, 1);
    pool.drain();
    let turns = machines.turns_of(0);
    is_number(rt, "a drained token made its turn", turns, 1);
}

/// So many times a token makes its one turn, and then the pool is closed.
fn makes_turns_one_by_one<R: Runtime>(
    rt: &Host<impl Abort>,
    mut pool: Pool<R, u64>,
    machines: &Counted,
    times: u64,
) {
    for _ in 0..times {
        makes_one_turn(rt, &pool, machines);
    }
    let turns = closes(rt, &mut pool).turns;
    is_number(rt, "one turn for each time", turns, times);
}

#[test]
fn tokens_are_scheduled_and_drained_one_by_one(rt: HostRuntime) {
    let threads = rt;
    let rt = Host::with_memory(rt);
    let machines = Counted::new(rt.alloc(), 1, 1).expect(&rt, "machines");
    let gate = Silent::new(rt.alloc()).expect(&rt, "a gate");
    let pool = started(&rt, threads, 3, &machines, &gate);
    makes_turns_one_by_one(&rt, pool, &machines, 10_000);
    rt.end_with_memory();
}

#[test]
fn tokens_that_never_rest_are_left_once_each(rt: HostRuntime) {
    let threads = rt;
    let rt = Host::with_memory(rt);
    let machines = Counted::endless(rt.alloc(), 10).expect(&rt, "machines");
    let gate = Silent::new(rt.alloc()).expect(&rt, "a gate");
    let mut pool = started(&rt, threads, 3, &machines, &gate);
    leaves_all(&rt, &mut pool, 10);
    drop(pool);
    rt.end_with_memory();
}

/// Waits until the machine in a slot has made more turns than so many, or gives up.
fn waits_for_turns(machines: &Counted, slot: usize, turns: u64) {
    for _ in 0..10_000_000 {
        if machines.turns_of(slot) > turns {
            return;
        }
        thread::yield_now();
    }
}

/// Looks that each of so many machines made a turn.
fn made_a_turn(rt: &impl Abort, machines: &Counted, count: usize) {
    for slot in 0..count {
        holds(rt, "each hot one is served", machines.turns_of(slot) > 0);
    }
}

#[test]
fn a_cold_token_is_served_beside_more_hot_ones_than_workers(rt: HostRuntime) {
    let threads = rt;
    let rt = Host::with_memory(rt);
    let machines = Counted::endless(rt.alloc(), 7).expect(&rt, "machines");
    let gate = Silent::new(rt.alloc()).expect(&rt, "a gate");
    let pool = started(&rt, threads, 2, &machines, &gate);
    serves_all_seven(&rt, pool, &machines);
    rt.end_with_memory();
}

/// Each of seven tokens is served, and none rests.
fn serves_all_seven<R: Runtime>(rt: &Host<impl Abort>, mut pool: Pool<R, u64>, machines: &Counted) {
    serves_a_cold_one(rt, &pool, machines);
    made_a_turn(rt, machines, 6);
    let left = closes(rt, &mut pool).left.len();
    is_count(rt, "all seven are left", left, 7);
}

/// Six hot tokens are scheduled, and a cold one once two of them made their turns, which is served too.
fn serves_a_cold_one<R: Runtime>(rt: &Host<impl Abort>, pool: &Pool<R, u64>, machines: &Counted) {
    schedules(rt, pool, 0, 6);
    waits_for_turns(machines, 0, 1_000);
    waits_for_turns(machines, 1, 1_000);
    schedules(rt, pool, 6, 7);
    waits_for_turns(machines, 6, 0);
    holds(rt, "the cold one is served", machines.turns_of(6) > 0);
}

#[test]
fn a_pool_that_is_let_go_ends_its_threads(rt: HostRuntime) {
    let threads = rt;
    let rt = Host::with_memory(rt);
    let machines = Counted::endless(rt.alloc(), 4).expect(&rt, "machines");
    let gate = Silent::new(rt.alloc()).expect(&rt, "a gate");
    let pool = started(&rt, threads, 2, &machines, &gate);
    schedules(&rt, &pool, 0, 4);
    drop(pool);
    makes_no_turn(&rt, &machines);
    rt.end_with_memory();
}

/// Looks that the first machine makes no turn meanwhile.
fn makes_no_turn(rt: &impl Abort, machines: &Counted) {
    let turns = machines.turns_of(0);
    for _ in 0..1_000 {
        thread::yield_now();
    }
    is_number(rt, "no turn is made any more", machines.turns_of(0), turns);
}
