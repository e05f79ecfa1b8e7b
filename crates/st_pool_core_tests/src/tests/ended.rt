//! Machines end, and requests are counted.
use super::host::{Host, holds};
use super::opened::opened;
use super::plain::{FIRST, Plain};
use super::pooled::Pooled;
use super::shown::Shown;
use super::told::{CAST, FREE, HELD, TOKEN, Wanted, does_all, does_one_list};
use st_core::{Collected, Entry, Kind, Refusal, Tag};
use st_pool_core::{PoolWorld, Step};
use std::process::Abort;

/// The machine's first request.
const FIRST_CALL: Tag = Tag {
    machine: FIRST,
    request: 1,
};

/// The machine's second request.
const SECOND_CALL: Tag = Tag {
    machine: FIRST,
    request: 2,
};

/// A caller calls the machine.
const CALL: Step<u32> = Step::Post(FIRST, Entry::Call, 0);

/// The machine's first event is posted.
const POSTED: Shown = Shown::Posted(1, Some(TOKEN));

/// A machine is stopped while a worker has its token.
static STOPPED_IN_HAND: [Wanted; 4] = [
    Wanted(CAST, POSTED, 1, FREE),
    Wanted(Step::Give(TOKEN, 0), Shown::Moved, 1, FREE),
    Wanted(Step::Take(1, 0), Shown::Moved, 1, HELD),
    Wanted(Step::Stop(FIRST, 9), Shown::Stopped, 2, HELD),
];

/// It rests at its worker's turn.
static RESTS: [Wanted; 1] = [Wanted(Step::Turn(1, 0), Shown::Rested, 2, FREE)];

/// The machine that was stopped rests at its worker's turn.
fn rests<T: Pooled>(rt: &Host<impl Abort>, mut pool: T) {
    does_all(rt, &mut pool, STOPPED_IN_HAND.as_slice());
    let outstanding = pool.token_of(FIRST) == Some(TOKEN);
    holds(rt, "its token is outstanding", outstanding);
    does_all(rt, &mut pool, RESTS.as_slice());
    holds(rt, "its token is retired", pool.token_of(FIRST) == None);
}

/// A pool of two workers and the machine.
fn alone(rt: &Host<impl Abort + AllocGlobal>) -> PoolWorld<Plain> {
    opened(rt, rt.alloc(), 2, [FIRST].as_slice())
}

#[test]
fn a_stopped_machine_rests(rt: HostRuntime) {
    let rt = Host::new(rt);
    rests(&rt, alone(&rt));
    rt.end();
}

/// What comes after the end is refused, with its content.
const TOO_LATE: Shown = Shown::Refused(Refusal::Stopped(9), Some(0));

/// A machine ends by its turn, and what comes later is refused.
static ENDS: [Wanted; 6] = [
    Wanted(Step::Post(FIRST, Entry::Info, 1), POSTED, 1, FREE),
    Wanted(CAST, Shown::Posted(2, None), 2, FREE),
    Wanted(Step::Give(TOKEN, 0), Shown::Moved, 2, FREE),
    Wanted(Step::Take(1, 0), Shown::Moved, 2, HELD),
    Wanted(Step::Turn(1, 0), Shown::Ended(1, Kind::Info), 3, FREE),
    Wanted(CAST, TOO_LATE, 3, FREE),
];

/// A machine ends by its turn, and its token is retired.
fn ends<T: Pooled>(rt: &Host<impl Abort>, mut pool: T) {
    does_all(rt, &mut pool, ENDS.as_slice());
    holds(rt, "its token is retired", pool.token_of(FIRST) == None);
}

#[test]
fn a_machine_ends_by_its_turn(rt: HostRuntime) {
    let rt = Host::new(rt);
    ends(&rt, alone(&rt));
    rt.end();
}

/// The first request is answered.
const REPLY_TO_FIRST: Step<u32> = Step::Reply(FIRST, FIRST_CALL, 50);

/// The second request is answered.
const REPLY_TO_SECOND: Step<u32> = Step::Reply(FIRST, SECOND_CALL, 50);

/// What is kept for the first request is collected.
const COLLECT_FIRST: Step<u32> = Step::Collect(FIRST, FIRST_CALL);

/// What is kept for the second request is collected.
const COLLECT_SECOND: Step<u32> = Step::Collect(FIRST, SECOND_CALL);

/// There is nothing to be collected.
const GONE: Shown = Shown::Collected(Collected::Gone);

/// A request is answered, and another one is not, since the machine is stopped.
static REQUESTS: [Wanted; 11] = [
    Wanted(CALL, POSTED, 1, FREE),
    Wanted(COLLECT_FIRST, Shown::Collected(Collected::Waiting), 1, FREE),
    Wanted(REPLY_TO_FIRST, Shown::Replied(true), 2, FREE),
    Wanted(REPLY_TO_FIRST, Shown::Replied(false), 3, FREE),
    Wanted(
        COLLECT_FIRST,
        Shown::Collected(Collected::Reply(50)),
        4,
        FREE,
    ),
    Wanted(COLLECT_FIRST, GONE, 4, FREE),
    Wanted(CALL, Shown::Posted(2, None), 5, FREE),
    Wanted(Step::Stop(FIRST, 9), Shown::Stopped, 6, FREE),
    Wanted(
        COLLECT_SECOND,
        Shown::Collected(Collected::Stopped(9)),
        7,
        FREE,
    ),
    Wanted(COLLECT_SECOND, GONE, 7, FREE),
    Wanted(REPLY_TO_SECOND, Shown::Replied(false), 8, FREE),
];

#[test]
fn what_hands_out_is_counted(rt: HostRuntime) {
    let rt = Host::new(rt);
    does_one_list(&rt, alone(&rt), REQUESTS.as_slice());
    rt.end();
}
