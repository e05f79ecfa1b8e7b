//! Steps and pools that are refused, which changes nothing.
use super::host::{Host, holds};
use super::opened::{are_of, cores, opened};
use super::plain::{FIFTH, FIRST, Plain, SECOND};
use super::pooled::Pooled;
use super::shown::{Shown, refusing};
use super::shows::shows;
use super::told::{CAST, TOKEN, content_in, copy_of, does, is_as_before};
use super::whole::read_all;
use st_core::{Core, Entry, MOMENT_LIMIT, MachineId, Refusal, Refused, Tag};
use st_events::Token;
use st_pool_core::{PoolWorld, Step};
use std::alloc::Global;
use std::process::Abort;

/// The machine in the third place.
const THIRD: MachineId = MachineId { slot: 2, serial: 3 };

/// The machine in the fourth place.
const FOURTH: MachineId = MachineId { slot: 3, serial: 4 };

/// The first token of the second machine.
const SECOND_TOKEN: Token = Token {
    machine: SECOND,
    wake: 1,
};

/// The first token of the fourth machine.
const FOURTH_TOKEN: Token = Token {
    machine: FOURTH,
    wake: 1,
};

/// Tokens are issued and moved, and a machine is stopped.
static BEFORE: [(Step<u32>, Shown); 7] = [
    (CAST, Shown::Posted(1, Some(TOKEN))),
    (Step::Give(TOKEN, 0), Shown::Moved),
    (Step::Take(2, 0), Shown::Moved),
    (
        Step::Post(SECOND, Entry::Cast, 0),
        Shown::Posted(1, Some(SECOND_TOKEN)),
    ),
    (Step::Stop(THIRD, 3), Shown::Stopped),
    (
        Step::Post(FOURTH, Entry::Cast, 0),
        Shown::Posted(1, Some(FOURTH_TOKEN)),
    ),
    (Step::Give(FOURTH_TOKEN, 1), Shown::Moved),
];

/// Does steps, and looks at their answers.
fn prepares<T: Pooled>(rt: &Host<impl Abort>, pool: &mut T, steps: &[(Step<u32>, Shown)]) {
    for (row, (step, answer)) in steps.iter().enumerate() {
        does(rt, row, pool, step, answer);
    }
}

/// A pool of two workers and four machines: the first one's token is in the second hand, the second one's with callers,
/// the third one has ended, and the fourth one's token is in the first worker's lane.
fn with_tokens(rt: &Host<impl Abort>, alloc: Global) -> PoolWorld<Plain> {
    let mut pool = opened(rt, alloc, 2, [FIRST, SECOND, THIRD, FOURTH].as_slice());
    prepares(rt, &mut pool, BEFORE.as_slice());
    pool
}

/// Does a step that is refused for this reason. The content that it holds comes back.
fn is_refused<T: Pooled>(
    rt: &impl Abort,
    row: usize,
    pool: &mut T,
    step: &Step<u32>,
    refusal: Refusal,
) {
    let wanted = refusing(refusal, content_in(step));
    let answer = pool.do_step(copy_of(step));
    shows(rt, row, "why it is refused", answer == wanted);
    drop(answer);
    drop(wanted);
}

/// Does steps that are refused for these reasons. The content that a step holds comes back, and nothing changes. None
/// of them takes memory.
fn all_refused<T: Pooled>(rt: &Host<impl Abort>, mut pool: T, steps: &[(Step<u32>, Refusal)]) {
    let before = read_all(rt, &pool);
    for (row, (step, refusal)) in steps.iter().enumerate() {
        is_refused(rt, row, &mut pool, step, *refusal);
        is_as_before(rt, row, &pool, &before);
    }
    drop(before);
    drop(pool);
}

/// A request of a machine that is not there.
const TAG: Tag = Tag {
    machine: FIFTH,
    request: 1,
};

/// The token of a machine that is not there.
const FIFTH_TOKEN: Token = Token {
    machine: FIFTH,
    wake: 1,
};

/// Steps of a machine, a lane or a worker that is not there.
static NOT_THERE: [(Step<u32>, Refusal); 16] = [
    (Step::Post(FIFTH, Entry::Cast, 8), Refusal::NotPossible),
    (Step::Reply(FIFTH, TAG, 8), Refusal::NotPossible),
    (Step::Tick(FIFTH, 0), Refusal::NotPossible),
    (Step::Stop(FIFTH, 4), Refusal::NotPossible),
    (Step::Collect(FIFTH, TAG), Refusal::NotPossible),
    (Step::Give(FIFTH_TOKEN, 0), Refusal::NotPossible),
    (Step::Give(SECOND_TOKEN, 3), Refusal::NotPossible),
    (Step::Take(0, 1), Refusal::NotPossible),
    (Step::Take(3, 1), Refusal::NotPossible),
    (Step::Take(1, 3), Refusal::NotPossible),
    (Step::Turn(0, 0), Refusal::NotPossible),
    (Step::Turn(3, 0), Refusal::NotPossible),
    (Step::PutBack(0), Refusal::NotPossible),
    (Step::PutBack(3), Refusal::NotPossible),
    (Step::Drop(0), Refusal::NotPossible),
    (Step::Drop(3), Refusal::NotPossible),
];

#[test]
fn what_is_not_there_is_refused(rt: HostRuntime) {
    let rt = Host::new(rt);
    let pool = with_tokens(&rt, rt.alloc());
    all_refused(&rt, pool, NOT_THERE.as_slice());
    rt.end();
}

/// The second machine's token before its first.
const SECOND_BEFORE: Token = Token {
    machine: SECOND,
    wake: 0,
};

/// The second machine's token behind its first.
const SECOND_LATER: Token = Token {
    machine: SECOND,
    wake: 2,
};

/// A token of the third machine.
const THIRD_TOKEN: Token = Token {
    machine: THIRD,
    wake: 0,
};

/// Steps that want a token where it is not.
static ELSEWHERE: [(Step<u32>, Refusal); 11] = [
    (Step::Give(TOKEN, 0), Refusal::NotPossible),
    (Step::Give(FOURTH_TOKEN, 0), Refusal::NotPossible),
    (Step::Give(SECOND_BEFORE, 0), Refusal::NotPossible),
    (Step::Give(SECOND_LATER, 0), Refusal::NotPossible),
    (Step::Give(THIRD_TOKEN, 0), Refusal::NotPossible),
    (Step::Take(1, 0), Refusal::NotPossible),
    (Step::Take(1, 2), Refusal::NotPossible),
    (Step::Take(2, 1), Refusal::NotPossible),
    (Step::Turn(1, 0), Refusal::NotPossible),
    (Step::PutBack(1), Refusal::NotPossible),
    (Step::Drop(1), Refusal::NotPossible),
];

#[test]
fn what_is_elsewhere_is_refused(rt: HostRuntime) {
    let rt = Host::new(rt);
    let pool = with_tokens(&rt, rt.alloc());
    all_refused(&rt, pool, ELSEWHERE.as_slice());
    rt.end();
}

/// Steps that the machine itself refuses.
static BY_A_MACHINE: [(Step<u32>, Refusal); 5] = [
    (Step::Post(THIRD, Entry::Call, 8), Refusal::Stopped(3)),
    (Step::Stop(THIRD, 4), Refusal::Stopped(3)),
    (Step::Tick(THIRD, 0), Refusal::Stopped(3)),
    (Step::Tick(FIRST, MOMENT_LIMIT), Refusal::Moment),
    (Step::Turn(2, MOMENT_LIMIT), Refusal::Moment),
];

#[test]
fn what_a_machine_refuses_is_refused(rt: HostRuntime) {
    let rt = Host::new(rt);
    let pool = with_tokens(&rt, rt.alloc());
    all_refused(&rt, pool, BY_A_MACHINE.as_slice());
    rt.end();
}

/// Why a pool of so many workers and these machines is refused.
fn refusal_of(
    rt: &impl Abort,
    alloc: Global,
    workers: usize,
    cores: Vec<Core<Plain>>,
) -> Refused<Vec<Core<Plain>>> {
    let refused = PoolWorld::new(alloc, workers, cores).err();
    refused.expect(rt, "no pool of so many workers")
}

/// A pool is not possible, and its machines come back. Where memory was refused, they come back too, and the call is
/// made again.
fn not_opened(rt: &Host<impl Abort>, alloc: Global, workers: usize, ids: &[MachineId]) {
    let mut last = refusal_of(rt, alloc, workers, cores(rt, alloc, ids));
    if last.refusal == Refusal::NoMemory {
        are_of(rt, last.value.as_slice(), ids);
        rt.retry();
        last = refusal_of(rt, alloc, workers, last.value);
    }
    let is_wanted = last.refusal == Refusal::NotPossible;
    holds(rt, "the pool is not possible", is_wanted);
    are_of(rt, last.value.as_slice(), ids);
    drop(last);
}

/// Pools of no worker, of too many, and of two machines with one id.
fn are_not_possible(rt: &Host<impl Abort>, alloc: Global) {
    not_opened(rt, alloc, 0, [FIRST, SECOND].as_slice());
    not_opened(rt, alloc, 17, [FIRST, SECOND].as_slice());
    not_opened(rt, alloc, 2, [FIRST, SECOND, FIRST].as_slice());
}

/// Looks at the counts of the second machine, to which nothing was done, and of a third one, which is not there.
fn has_two(rt: &impl Abort, (there, absent): (Option<u64>, Option<u64>)) {
    holds(rt, "nothing was done", there == Some(0));
    holds(rt, "there is no third machine", absent == None);
}

#[test]
fn pools_that_are_not_possible(rt: HostRuntime) {
    let rt = Host::new(rt);
    are_not_possible(&rt, rt.alloc());
    let pool = opened(&rt, rt.alloc(), 16, [FIRST, SECOND].as_slice());
    let counts = (pool.count(SECOND), pool.count(THIRD));
    drop(pool);
    has_two(&rt, counts);
    rt.end();
}
