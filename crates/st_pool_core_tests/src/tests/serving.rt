//! Machines are posted events and served.
use super::host::{Host, holds};
use super::opened::opened;
use super::plain::{FIRST, Plain, SECOND};
use super::played::plays;
use super::pooled::Pooled;
use super::shown::{NOT_POSSIBLE, Shown};
use super::told::{CAST, FREE, HELD, Hands, TOKEN, Wanted, does, does_all};
use super::whole::{has_lane, have_callers};
use st_core::Kind;
use st_events::Token;
use st_pool_core::{PoolWorld, Step};
use std::process::Abort;

/// The token that the first machine is issued at its third post.
const LATER: Token = Token {
    machine: FIRST,
    wake: 5,
};

/// The second hand holds the first machine's first token.
const HELD_BY_SECOND: Hands = (None, Some(TOKEN));

/// A turn handles the first cast.
const FIRST_HANDLED: Shown = Shown::Handled(1, Kind::Cast);

/// A turn handles the second cast.
const SECOND_HANDLED: Shown = Shown::Handled(2, Kind::Cast);

/// Two posts and a third one, a token that a worker takes and another one steals, and two steps that are not possible.
static ELEVEN: [Wanted; 11] = [
    Wanted(CAST, Shown::Posted(1, Some(TOKEN)), 1, FREE),
    Wanted(CAST, Shown::Posted(2, None), 2, FREE),
    Wanted(Step::Give(TOKEN, 0), Shown::Moved, 2, FREE),
    Wanted(Step::Take(2, 0), Shown::Moved, 2, HELD_BY_SECOND),
    Wanted(Step::Take(1, 0), NOT_POSSIBLE, 2, HELD_BY_SECOND),
    Wanted(Step::Turn(2, 0), FIRST_HANDLED, 3, HELD_BY_SECOND),
    Wanted(Step::PutBack(2), Shown::Moved, 3, FREE),
    Wanted(Step::Take(1, 2), Shown::Moved, 3, HELD),
    Wanted(Step::Turn(1, 0), SECOND_HANDLED, 4, FREE),
    Wanted(Step::Turn(1, 0), NOT_POSSIBLE, 4, FREE),
    Wanted(CAST, Shown::Posted(3, Some(LATER)), 5, FREE),
];

/// A pool of two workers and two machines.
fn two(rt: &Host<impl Abort + AllocGlobal>) -> PoolWorld<Plain> {
    opened(rt, rt.alloc(), 2, [FIRST, SECOND].as_slice())
}

/// Does the steps one by one.
fn one_by_one<T: Pooled>(rt: &Host<impl Abort>, mut pool: T, wanted: &[Wanted]) {
    does_all(rt, &mut pool, wanted);
    have_callers(rt, &pool, LATER);
    drop(pool);
}

/// Does the steps as one list.
fn as_one_list(rt: &Host<impl Abort + AllocGlobal>, wanted: &[Wanted]) {
    let pools = (two(rt), two(rt), two(rt));
    plays(rt, rt.alloc(), pools, wanted);
}

#[test]
fn eleven_steps_over_two_machines(rt: HostRuntime) {
    let rt = Host::new(rt);
    one_by_one(&rt, two(&rt), ELEVEN.as_slice());
    as_one_list(&rt, ELEVEN.as_slice());
    rt.end();
}

/// A worker takes the machine's token and drops it.
static DROPPED: [Wanted; 4] = [
    Wanted(CAST, Shown::Posted(1, Some(TOKEN)), 1, FREE),
    Wanted(Step::Give(TOKEN, 0), Shown::Moved, 1, FREE),
    Wanted(Step::Take(1, 0), Shown::Moved, 1, HELD),
    Wanted(Step::Drop(1), Shown::Moved, 1, FREE),
];

/// The other worker steals it, and serves the machine.
static STOLEN: [Wanted; 2] = [
    Wanted(Step::Take(2, 1), Shown::Moved, 1, HELD_BY_SECOND),
    Wanted(Step::Turn(2, 0), FIRST_HANDLED, 2, FREE),
];

/// The dropped token is given to the run queue of the worker that dropped it.
fn is_given<T: Pooled>(rt: &Host<impl Abort>, pool: &mut T) {
    let is_back = pool.have_callers(TOKEN);
    holds(rt, "the dropped token is with callers", is_back);
    have_callers(rt, pool, TOKEN);
    does(rt, 0, pool, &Step::Give(TOKEN, 1), &Shown::Moved);
    let is_given = !pool.have_callers(TOKEN);
    holds(rt, "a token that is given is not", is_given);
    has_lane(rt, pool, 1, TOKEN);
}

/// A token is dropped, given to the run queue of the worker that dropped it, and stolen from there.
fn goes_round<T: Pooled>(rt: &Host<impl Abort>, mut pool: T) {
    does_all(rt, &mut pool, DROPPED.as_slice());
    is_given(rt, &mut pool);
    does_all(rt, &mut pool, STOLEN.as_slice());
    let is_retired = pool.token_of(FIRST) == None;
    holds(rt, "its token is retired", is_retired);
    drop(pool);
}

#[test]
fn a_dropped_token_is_given_again_and_stolen(rt: HostRuntime) {
    let rt = Host::new(rt);
    let pool = opened(&rt, rt.alloc(), 2, [FIRST].as_slice());
    goes_round(&rt, pool);
    rt.end();
}
