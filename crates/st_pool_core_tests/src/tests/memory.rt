//! Each call where one allocation is refused: nothing that can be read changes, and it is made again.
use super::host::{Host, got, holds};
use super::opened::{cores, is_made_again, opened_with};
use super::plain::{FIRST, Plain, SECOND};
use super::played::plays;
use super::pooled::Pooled;
use super::shown::Shown;
use super::told::{FREE, Hands, Wanted, does_all};
use super::whole::{has_lane, have_callers};
use st_core::{Core, Entry, Kind, Module};
use st_events::Token;
use st_pool_core::{PoolWorld, Step};
use std::alloc::Global;
use std::process::Abort;

/// Posts a cast to a machine that is in no pool yet. Where it finds no memory, it is posted again.
fn post<M: Module<Content = u32>>(rt: &Host<impl Abort>, core: &mut Core<M>, content: u32) {
    if let Err(refused) = core.post(Entry::Cast, content) {
        is_made_again(rt, refused.refusal);
        let again = core.post(Entry::Cast, refused.value);
        got(rt, "one allocation alone is refused", again);
    }
}

/// A pool of two workers and two machines, of which the first has an event when the pool opens.
fn with_event(rt: &Host<impl Abort>, alloc: Global) -> PoolWorld<Plain> {
    let ids = [FIRST, SECOND];
    let mut cores = cores(rt, alloc, ids.as_slice());
    for core in cores.as_mut_slice().iter_mut().take(1) {
        post(rt, core, 3);
    }
    opened_with(rt, alloc, 2, cores, ids.as_slice())
}

/// The first token of the first machine, which it has when the pool opens.
const READY: Token = Token {
    machine: FIRST,
    wake: 0,
};

/// The token that a time-out of the first machine wakes.
const EXPIRED: Token = Token {
    machine: FIRST,
    wake: 2,
};

/// The first token of the second machine.
const LATER: Token = Token {
    machine: SECOND,
    wake: 1,
};

/// The first hand holds the first machine's first token.
const IN_FIRST: Hands = (Some(READY), None);

/// The second hand holds it.
const IN_SECOND: Hands = (None, Some(READY));

/// A caller posts a cast to the second machine.
const CAST_LATER: Step<u32> = Step::Post(SECOND, Entry::Cast, 0);

/// A token that goes from hand to lane to the other hand, a turn that sets a time-out, a tick, and a post to the second machine.
static STEPS: [Wanted; 8] = [
    Wanted(Step::Give(READY, 0), Shown::Moved, 0, FREE),
    Wanted(Step::Take(1, 0), Shown::Moved, 0, IN_FIRST),
    Wanted(Step::PutBack(1), Shown::Moved, 0, FREE),
    Wanted(Step::Take(2, 1), Shown::Moved, 0, IN_SECOND),
    Wanted(Step::Turn(2, 0), Shown::Handled(1, Kind::Cast), 1, FREE),
    Wanted(
        Step::Tick(FIRST, 5),
        Shown::Ticked(1, Some(EXPIRED)),
        2,
        FREE,
    ),
    Wanted(CAST_LATER, Shown::Posted(1, Some(LATER)), 2, FREE),
    Wanted(Step::Give(LATER, 2), Shown::Moved, 2, FREE),
];

/// Does the steps one by one.
fn one_by_one<T: Pooled>(rt: &Host<impl Abort>, mut pool: T, wanted: &[Wanted]) {
    have_callers(rt, &pool, READY);
    does_all(rt, &mut pool, wanted);
    have_callers(rt, &pool, EXPIRED);
    has_lane(rt, &pool, 2, LATER);
    drop(pool);
}

/// Does the steps as one list.
fn as_one_list(rt: &Host<impl Abort>, alloc: Global, wanted: &[Wanted]) {
    let pools = (
        with_event(rt, alloc),
        with_event(rt, alloc),
        with_event(rt, alloc),
    );
    plays(rt, alloc, pools, wanted);
}

#[test]
fn each_call_is_made_again(rt: HostRuntime) {
    let rt = Host::new(rt);
    let alloc = rt.alloc();
    one_by_one(&rt, with_event(&rt, alloc), STEPS.as_slice());
    as_one_list(&rt, alloc, STEPS.as_slice());
    rt.end();
}
