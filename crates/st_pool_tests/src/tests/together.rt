//! Tokens that wait for each other's turns, so that their workers have to be awake at once.
ghost use Rattle.std.specs.Prelude.{◌≤◌};

use super::chain::Chain;
use super::counted::Counted;
use super::host::{Host, holds, is_number};
use super::meeting::Meeting;
use super::started::{closes, schedules, started};
use st_pool::Runtime;
use std::process::Abort;

/// So many workers serve a chain of so many tokens, so many times. How often a token waited in vain.
fn chains<R: Runtime>(
    rt: &Host<impl Abort + AllocGlobal>,
    threads: R,
    workers: usize,
    tokens: usize,
    rounds: u32,
) -> u64
    requires { (1 ≤ workers) × (workers ≤ 16) }
{
    let machines = Counted::new(rt.alloc(), tokens, 1).expect(rt, "machines");
    let gate = Chain::new(rt.alloc(), tokens, tokens <= workers).expect(rt, "a gate");
    let mut pool = started(rt, threads, workers, &machines, &gate);
    for _ in 0..rounds {
        machines.begin_anew();
        gate.begin_anew();
        schedules(rt, &pool, 0, tokens);
        pool.drain();
    }
    holds(
        rt,
        "no token of a chain is left",
        closes(rt, &mut pool).left.is_empty(),
    );
    gate.gave_up()
}

#[test]
fn two_workers_serve_two_tokens_at_once_and_one_does_not(rt: HostRuntime) {
    let threads = rt;
    let rt = Host::with_memory(rt);
    is_number(
        &rt,
        "two workers serve both at once",
        chains(&rt, threads, 2, 2, 1),
        0,
    );
    is_number(
        &rt,
        "with one worker one waits in vain",
        chains(&rt, threads, 1, 2, 1),
        1,
    );
    rt.end_with_memory();
}

#[test]
fn as_many_tokens_as_workers_are_served_at_once(rt: HostRuntime) {
    let threads = rt;
    let rt = Host::with_memory(rt);
    is_number(
        &rt,
        "one token of one worker waits for none",
        chains(&rt, threads, 1, 1, 1_000),
        0,
    );
    is_number(
        &rt,
        "two at once, none in vain",
        chains(&rt, threads, 2, 2, 1_000),
        0,
    );
    is_number(
        &rt,
        "four at once, none in vain",
        chains(&rt, threads, 4, 4, 500),
        0,
    );
    is_number(
        &rt,
        "sixteen at once, none in vain",
        chains(&rt, threads, 16, 16, 100),
        0,
    );
    rt.end_with_memory();
}

/// Two workers serve six tokens, of which two meet when the others rest. How often one waited in vain.
fn meetings<R: Runtime>(rt: &Host<impl Abort + AllocGlobal>, threads: R, times: u32) -> u64 {
    let machines = Counted::new(rt.alloc(), 6, 400).expect(rt, "machines");
    let gate = Meeting::new(rt.alloc(), 400).expect(rt, "a gate");
    let mut pool = started(rt, threads, 2, &machines, &gate);
    for _ in 0..times {
        machines.begin_anew();
        gate.begin_anew();
        schedules(rt, &pool, 0, 6);
        pool.drain();
    }
    holds(
        rt,
        "no token of a meeting is left",
        closes(rt, &mut pool).left.is_empty(),
    );
    gate.gave_up()
}

#[test]
fn workers_share_what_stands_on_one_queue(rt: HostRuntime) {
    let threads = rt;
    let rt = Host::with_memory(rt);
    is_number(&rt, "no one waits in vain", meetings(&rt, threads, 200), 0);
    rt.end_with_memory();
}
