//! Steps of a pool: where one finds no memory, the pool is looked at, and the step is made again.
use super::host::Host;
use super::plain::FIRST;
use super::pooled::Pooled;
use super::shown::{Shown, agrees, refusing};
use super::shows::shows;
use super::whole::{Whole, read_all};
use st_core::{Entry, Refusal};
use st_events::Token;
use st_pool_core::{Step, StepAnswer};
use std::process::Abort;

/// The first two hands.
pub type Hands = (Option<Token>, Option<Token>);

/// No hand holds a token.
pub const FREE: Hands = (None, None);

/// The first machine's first token.
pub const TOKEN: Token = Token {
    machine: FIRST,
    wake: 1,
};

/// The first hand holds the first machine's first token.
pub const HELD: Hands = (Some(TOKEN), None);

/// A step, what it is to answer, the first machine's count after it, and the first two hands.
#[derive(Drop)]
pub struct Wanted(pub Step<u32>, pub Shown, pub u64, pub Hands);

/// A caller posts a cast with the content 0 to the first machine.
pub const CAST: Step<u32> = Step::Post(FIRST, Entry::Cast, 0);

/// The same step.
pub fn copy_of(step: &Step<u32>) -> Step<u32> {
    match step {
        Step::Post(id, entry, content) => Step::Post(*id, *entry, *content),
        Step::Tick(id, now) => Step::Tick(*id, *now),
        Step::Give(token, lane) => Step::Give(*token, *lane),
        Step::Take(worker, lane) => Step::Take(*worker, *lane),
        Step::Turn(worker, now) => Step::Turn(*worker, *now),
        Step::PutBack(worker) => Step::PutBack(*worker),
        Step::Drop(worker) => Step::Drop(*worker),
        Step::Stop(id, reason) => Step::Stop(*id, *reason),
        Step::Reply(id, tag, content) => Step::Reply(*id, *tag, *content),
        Step::Collect(id, tag) => Step::Collect(*id, *tag),
        Step::Carry(worker) => Step::Carry(*worker),
        Step::Deliver(worker) => Step::Deliver(*worker),
    }
}

/// The content that a step holds, if it holds one.
pub fn content_in(step: &Step<u32>) -> Option<u32> {
    match step {
        Step::Post(_, _, content) | Step::Reply(_, _, content) => Some(*content),
        _ => None,
    }
}

/// Says whether a step found no memory.
pub fn found_no_memory(answer: &StepAnswer<u32, u32>) -> bool {
    matches!(answer, StepAnswer::Refused(refused) if refused.refusal == Refusal::NoMemory)
}

/// Looks that a step that finds no memory gives its content back.
pub fn comes_back(rt: &impl Abort, row: usize, step: &Step<u32>, answer: &StepAnswer<u32, u32>) {
    let refused = refusing(Refusal::NoMemory, content_in(step));
    shows(rt, row, "its content comes back", *answer == refused);
    drop(refused);
}

/// Looks that nothing that can be read of a pool has changed.
pub fn is_as_before<T: Pooled>(rt: &Host<impl Abort>, row: usize, pool: &T, before: &Whole) {
    let after = read_all(rt, pool);
    shows(rt, row, "a refusal changes nothing", after == *before);
    drop(after);
}

/// Where a step has found no memory, nothing that can be read has changed, the content came back, and the same step is
/// made again.
fn again<T: Pooled>(
    rt: &Host<impl Abort>,
    row: usize,
    pool: &mut T,
    step: &Step<u32>,
    before: &Whole,
    answer: StepAnswer<u32, u32>,
) -> StepAnswer<u32, u32> {
    if found_no_memory(&answer) {
        comes_back(rt, row, step, &answer);
        drop(answer);
        is_as_before(rt, row, pool, before);
        rt.retry();
        pool.do_step(copy_of(step))
    } else {
        answer
    }
}

/// Does one step. Where it finds no memory, nothing that can be read has changed, the content comes back, and the same
/// step is made again.
pub fn tell<T: Pooled>(
    rt: &Host<impl Abort>,
    row: usize,
    pool: &mut T,
    step: &Step<u32>,
) -> StepAnswer<u32, u32> {
    let before = read_all(rt, pool);
    let answer = pool.do_step(copy_of(step));
    let answer = again(rt, row, pool, step, &before, answer);
    drop(before);
    answer
}

/// Does one step, and looks at its answer.
pub fn does<T: Pooled>(
    rt: &Host<impl Abort>,
    row: usize,
    pool: &mut T,
    step: &Step<u32>,
    wanted: &Shown,
) {
    let answer = tell(rt, row, pool, step);
    agrees(rt, row, &answer, wanted);
    drop(answer);
}

/// Looks at the first machine's count, and at the first two hands.
fn looks<T: Pooled>(rt: &impl Abort, row: usize, pool: &T, count: u64, hands: Hands) {
    let seen = pool.see(FIRST).expect(rt, "the first machine is there");
    let is_counted = seen.count == Some(count);
    shows(rt, row, "the first machine's count", is_counted);
    let are_held = (pool.in_hand(1), pool.in_hand(2)) == hands;
    shows(rt, row, "the first two hands", are_held);
}

/// Does steps one after another, and looks at their answers, and at the first machine's count and the hands after each.
pub fn does_all<T: Pooled>(rt: &Host<impl Abort>, pool: &mut T, wanted: &[Wanted]) {
    for (row, Wanted(step, answer, count, hands)) in wanted.iter().enumerate() {
        does(rt, row, pool, step, answer);
        looks(rt, row, pool, *count, *hands);
    }
}

/// Does steps in a pool, and lets it go.
pub fn does_one_list<T: Pooled>(rt: &Host<impl Abort>, mut pool: T, wanted: &[Wanted]) {
    does_all(rt, &mut pool, wanted);
    drop(pool);
}

/// Does steps in a pool, and then others, and lets it go.
pub fn does_both<T: Pooled>(rt: &Host<impl Abort>, mut pool: T, first: &[Wanted], then: &[Wanted]) {
    does_all(rt, &mut pool, first);
    does_all(rt, &mut pool, then);
    drop(pool);
}
