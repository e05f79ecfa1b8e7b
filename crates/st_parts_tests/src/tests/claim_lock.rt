//! Tests of st_claim_lock: a counter that only grows, whose holders claim counts that they saw, where two threads count,
//! one waits for what another counts, and each allocation is refused in turn.
ghost use Rattle.std.specs.Prelude.{◌≡◌, ◌≤◌};
ghost use Rattle.st_claim_lock.specs.Holders.{lock_id, lock_of, claim_of, Claims, HasNothingOut};

use super::host::{Host, got, holds, is_number};
use st_claim_lock::{ClaimLock, Claimed, Holder, Tie};
use std::marker::Brand;
use std::process::Abort;
use std::sync::{Condvar, Wait};
use std::thread;

/// A claim: the counter has reached this number. No value of it is made.
struct Claim {
    reached: u64,
}

/// A claim fits each count from its number on.
struct Reached;

impl Tie<u64, Claim> for Reached {
    ghost fits = { λ count claim. claim.reached ≤ count };

    ghost first = { record { reached = 0 } };
}

impl Claimed<Claim> for Brand {
    ghost claim = { record { reached = 0 } };
}

type Counter = ClaimLock<u64, Claim, Reached>;

/// A counter at 0, with its first holder. Where memory was refused, it is made again.
fn new_counter(rt: &Host<impl Abort + AllocGlobal>) -> (Counter, Holder<u64, Claim>)
    ensures { (lock_of result.1 ≡ lock_id result.0) × Claims result.1 (record { reached = 0 }) }
{
    match Counter::new(rt.alloc(), 0) {
        Ok(made) => made,
        Err(refused) => {
            holds(rt, "the count comes back", refused.value == 0);
            rt.retry();
            let again = Counter::new(rt.alloc(), refused.value);
            got(rt, "one allocation alone is refused", again)
        }
    }
}

/// A second holder of the counter.
fn newcomer(rt: &impl Wait, lock: &Counter) -> Holder<u64, Claim>
    ensures { (lock_of result ≡ lock_id lock.now) × Claims result (record { reached = 0 }) }
{
    let (taken, count, mut holder) = lock.arrive(rt);
    taken.give_back(&mut holder, count);
    holder
}

/// Adds one, and the holder claims the new count.
fn count_up(rt: &impl Wait, lock: &Counter, holder: &mut Holder<u64, Claim>) -> u64
    requires lock { lock_of holder.old ≡ lock_id lock.now }
    requires home { HasNothingOut holder.old }
    ensures more { (claim_of holder.old).reached ≤ result }
    ensures claims { Claims holder.new (record { reached = result }) }
    ensures same { lock_of holder.new ≡ lock_of holder.old }
{
    let (taken, count) = lock.take(rt, holder);
    let count = count.saturating_add(1);
    taken.give::<Brand>(holder, count);
    count
}

/// Adds one so often, and answers what the holder claims then.
fn count_often(
    rt: &impl Wait,
    lock: &Counter,
    mut holder: Holder<u64, Claim>,
    times: u32,
) -> (Holder<u64, Claim>, u64)
    requires { (lock_of holder ≡ lock_id lock.now) × Claims holder (record { reached = 0 }) }
    ensures { (lock_of result.0 ≡ lock_id lock.now) × Claims result.0 (record { reached = result.1 }) }
{
    let mut reached = 0;
    for _ in 0..times {
        reached = count_up(rt, lock, &mut holder);
    }
    (holder, reached)
}

/// The count, which has reached what the holder claims.
fn count_now(rt: &impl Wait, lock: &Counter, holder: &mut Holder<u64, Claim>, reached: u64) -> u64
    requires { (lock_of holder.old ≡ lock_id lock.now) × Claims holder.old (record { reached = reached }) }
    ensures { reached ≤ result }
{
    let (taken, count) = lock.take(rt, holder);
    taken.give_back(holder, count);
    count
}

#[test]
fn two_threads_count_and_each_claims_what_it_reached(rt: HostRuntime) {
    let threads = rt;
    let rt = Host::new(rt);
    let (lock, first) = new_counter(&rt);
    let second = newcomer(&threads, &lock);
    let (one, other) = thread::join(
        &threads,
        || count_often(&threads, &lock, first, 100),
        || count_often(&threads, &lock, second, 100),
    );
    let (mut first, reached) = one;
    holds(&rt, "it reached what it counted", reached >= 100);
    let count = count_now(&threads, &lock, &mut first, reached);
    is_number(&rt, "what both counted", count, 200);
    let (mut second, reached) = other;
    holds(&rt, "it reached what it counted", reached >= 100);
    let count = count_now(&threads, &lock, &mut second, reached);
    is_number(&rt, "what both counted", count, 200);
    drop(first);
    drop(second);
    drop(lock);
    rt.end();
}

/// Waits until the counter has reached a number, and answers the count.
fn wait_for(rt: &impl Wait, lock: &Counter, counted: &Condvar, number: u64) -> u64
    ensures { number ≤ result }
{
    for _ in rt.forever() {
        let (taken, count, mut holder) = lock.arrive(rt);
        let gate = taken.give_back(&mut holder, count);
        if count >= number {
            return count;
        }
        drop(counted.wait(rt, gate));
    }
    unreachable!()
}

/// Adds one so often, and tells who waits of each.
fn count_and_tell(
    rt: &impl Wait,
    lock: &Counter,
    counted: &Condvar,
    mut holder: Holder<u64, Claim>,
    times: u32,
)
    requires { (lock_of holder ≡ lock_id lock.now) × Claims holder (record { reached = 0 }) }
{
    for _ in 0..times {
        count_up(rt, lock, &mut holder);
        counted.notify_all();
    }
}

#[test]
fn one_thread_waits_for_what_another_counts(rt: HostRuntime) {
    let threads = rt;
    let rt = Host::new(rt);
    let (lock, holder) = new_counter(&rt);
    let counted = Condvar::new();
    let (count, _) = thread::join(
        &threads,
        || wait_for(&threads, &lock, &counted, 3),
        || count_and_tell(&threads, &lock, &counted, holder, 3),
    );
    is_number(&rt, "what was waited for", count, 3);
    drop(counted);
    drop(lock);
    rt.end();
}
