//! Pools of a test, and what is asked of them.
ghost use Rattle.std.specs.Prelude.{◌≤◌};

use super::counted::token;
use super::host::{Host, got, holds, is_count, is_number, same};
use st_pool::{Gate, Machines, Pool, PoolEnd, PutRefused, Runtime, Token};
use std::alloc::Global;
use std::process::Abort;
use std::sync::Arc;

/// A pool of so many workers. Where it finds no memory, it is started again.
pub fn started<R: Runtime, M, G>(
    rt: &Host<impl Abort + AllocGlobal>,
    threads: R,
    workers: usize,
    machines: &Arc<M>,
    gate: &Arc<G>,
) -> Pool<R, u64>
where
    M: Machines<Content = u64> + Drop + Send + Sync + 'static,
    G: Gate + Drop + Send + Sync + 'static,
    requires { (1 ≤ workers) × (workers ≤ 16) }
{
    match Pool::start(threads, rt.alloc(), workers, machines, gate) {
        Ok(pool) => pool,
        Err(_) => {
            rt.retry();
            Pool::start(threads, rt.alloc(), workers, machines, gate).expect(
                rt,
                "one allocation alone is refused",
            )
        }
    }
}

/// Schedules the token of each slot from one up to another. One that finds no memory comes back, and is scheduled again.
pub fn schedules<R: Runtime>(rt: &Host<impl Abort>, pool: &Pool<R, u64>, first: usize, end: usize) {
    for slot in first..end {
        if let Err(refused) = pool.schedule(token(slot)) {
            same(
                rt,
                "what is refused comes back",
                &refused,
                &PutRefused(token(slot)),
            );
            rt.retry();
            holds(
                rt,
                "it is scheduled the second time",
                pool.schedule(refused.0) == Ok(()),
            );
        }
    }
}

/// Looks that it is this token, or that there is none.
pub fn is_token(rt: &impl Abort, word: &str, found: Option<Token>, wanted: Option<Token>) {
    same(rt, word, &found, &wanted);
}

/// Closes a pool. Where it finds no memory, it is closed again.
pub fn closes<R: Runtime>(rt: &Host<impl Abort>, pool: &mut Pool<R, u64>) -> PoolEnd<u64> {
    match pool.close() {
        Ok(end) => end,
        Err(_) => {
            rt.retry();
            got(rt, "one allocation alone is refused", pool.close())
        }
    }
}

/// Closes a pool for the second time: so many turns were made, as at the first, and nothing is left any more.
pub fn closes_again<R: Runtime>(rt: &Host<impl Abort>, pool: &mut Pool<R, u64>, turns: u64) {
    is_second_end(rt, &closes(rt, pool), turns);
}

/// Looks that a second close counts so many turns, and that nothing is left.
fn is_second_end(rt: &impl Abort, again: &PoolEnd<u64>, turns: u64) {
    is_number(
        rt,
        "the second close counts the same turns",
        again.turns,
        turns,
    );
    let left = again.left.is_empty();
    holds(rt, "the second close finds none left", left);
    let carried = again.carried.is_empty();
    holds(rt, "the second close finds none carried", carried);
}

/// Schedules so many tokens of machines that never rest, and closes the pool: each is left once. Then it is drained at once,
/// and closes again.
pub fn leaves_all<R: Runtime>(rt: &Host<impl Abort>, pool: &mut Pool<R, u64>, count: usize) {
    schedules(rt, pool, 0, count);
    let end = closes(rt, pool);
    pool.drain();
    are_left(rt, &end, count);
    closes_again(rt, pool, end.turns);
}

/// Looks that the tokens of so many slots are left, each once, and no others.
pub fn are_left(rt: &impl Abort, end: &PoolEnd<u64>, count: usize) {
    is_count(rt, "so many are left", end.left.len(), count);
    for slot in 0..count {
        let left = times(end.left.as_slice(), token(slot));
        is_count(rt, "each is left once", left, 1);
    }
}

/// How often a token stands in a list.
pub fn times(tokens: &[Token], token: Token) -> usize {
    tokens.iter().filter(|other| **other == token).count()
}
