//! Machines send messages, and workers carry them.
ghost use Rattle.std.specs.Prelude.{◌≤◌, ◌<◌, ◌^◌};

use super::host::{Host, holds};
use super::opened::{add, cores_from, opened, opened_with, with_reserved};
use super::plain::{FIRST, Plain, SECOND};
use super::played::plays;
use super::pooled::Pooled;
use super::shown::{NOT_POSSIBLE, Shown};
use super::told::{FREE, HELD, Hands, TOKEN, Wanted, does_all, does_both, does_one_list};
use super::whole::have_callers;
use st_core::{Entry, Kind, Refusal};
use st_events::{NUMBER_LIMIT, Token};
use st_pool_core::{PoolWorld, Step};
use std::alloc::Global;
use std::process::Abort;

/// The first token of the second machine.
const WOKEN: Token = Token {
    machine: SECOND,
    wake: 1,
};

/// The second hand holds the first machine's first token.
const HELD_BY_SECOND: Hands = (None, Some(TOKEN));

/// The event that asks the first machine for something is posted.
const POSTED: Shown = Shown::Posted(1, Some(TOKEN));

/// Its token goes to the shared run queue.
const GIVEN: Wanted = Wanted(Step::Give(TOKEN, 0), Shown::Moved, 1, FREE);

/// The first worker takes it.
const TAKEN: Wanted = Wanted(Step::Take(1, 0), Shown::Moved, 1, HELD);

/// The first machine is asked for two messages to the second one, and the first worker serves it: it sends them.
static TWO_SENT: [Wanted; 4] = [
    Wanted(Step::Post(FIRST, Entry::Cast, 5), POSTED, 1, FREE),
    GIVEN,
    TAKEN,
    Wanted(Step::Turn(1, 0), Shown::Sent(1, Kind::Cast, 2), 2, HELD),
];

/// The first machine is asked for a message to itself, and the first worker serves it: it sends it.
static ONE_TO_ITSELF: [Wanted; 4] = [
    Wanted(Step::Post(FIRST, Entry::Cast, 6), POSTED, 1, FREE),
    GIVEN,
    TAKEN,
    Wanted(Step::Turn(1, 0), Shown::Sent(1, Kind::Cast, 1), 2, HELD),
];

/// The first machine is asked for a message to nobody, and the first worker serves it: it sends it.
static ONE_TO_NOBODY: [Wanted; 4] = [
    Wanted(Step::Post(FIRST, Entry::Cast, 7), POSTED, 1, FREE),
    GIVEN,
    TAKEN,
    Wanted(Step::Turn(1, 0), Shown::Sent(1, Kind::Cast, 1), 2, HELD),
];

/// The message that the first worker carries: its number and content.
fn carried<T: Pooled>(pool: &T) -> Option<(u64, u32)> {
    let message = pool.in_transit(1)?;
    Some((message.number, message.content))
}

/// Looks which message the first worker carries, by its number and content.
fn carries<T: Pooled>(rt: &impl Abort, pool: &T, wanted: Option<(u64, u32)>) {
    let is_carried = carried(pool) == wanted;
    holds(rt, "the message that is carried", is_carried);
}

/// Two messages are sent to one machine: the first one arrives, and the second one is lost, since the machine was
/// stopped meanwhile.
static TWO_MESSAGES: [Wanted; 10] = [
    Wanted(Step::Post(FIRST, Entry::Cast, 5), POSTED, 1, FREE),
    GIVEN,
    TAKEN,
    Wanted(Step::Turn(1, 0), Shown::Sent(1, Kind::Cast, 2), 2, HELD),
    Wanted(Step::Carry(1), Shown::Moved, 3, HELD),
    Wanted(Step::Deliver(1), Shown::Posted(1, Some(WOKEN)), 3, HELD),
    Wanted(Step::Carry(1), Shown::Moved, 4, HELD),
    Wanted(Step::Stop(SECOND, 3), Shown::Stopped, 4, HELD),
    Wanted(Step::Deliver(1), Shown::Lost(Refusal::Stopped(3)), 4, HELD),
    Wanted(Step::Turn(1, 0), Shown::Rested, 4, FREE),
];

/// A pool of two workers and both machines.
fn both(rt: &Host<impl Abort + AllocGlobal>) -> PoolWorld<Plain> {
    opened(rt, rt.alloc(), 2, [FIRST, SECOND].as_slice())
}

/// Does the steps of the two messages one by one.
fn one_by_one<T: Pooled>(rt: &Host<impl Abort>, mut pool: T, wanted: &[Wanted]) {
    does_all(rt, &mut pool, wanted);
    have_callers(rt, &pool, WOKEN);
    let seen = pool.see(SECOND).expect(rt, "the target is there");
    let counted = seen.count == Some(2);
    holds(rt, "the target's post and its stop", counted);
    drop(pool);
}

/// Does the steps of the two messages as one list.
fn as_one_list(rt: &Host<impl Abort + AllocGlobal>, wanted: &[Wanted]) {
    let pools = (both(rt), both(rt), both(rt));
    plays(rt, rt.alloc(), pools, wanted);
}

#[test]
fn one_message_arrives_and_one_is_lost(rt: HostRuntime) {
    let rt = Host::new(rt);
    one_by_one(&rt, both(&rt), TWO_MESSAGES.as_slice());
    as_one_list(&rt, TWO_MESSAGES.as_slice());
    rt.end();
}

/// What a worker does that carries nothing yet, and then carries the first message.
static NONE_CARRIED: [Wanted; 4] = [
    Wanted(Step::Deliver(1), NOT_POSSIBLE, 2, HELD),
    Wanted(Step::Carry(2), NOT_POSSIBLE, 2, HELD),
    Wanted(Step::Turn(1, 0), Shown::Moved, 2, HELD),
    Wanted(Step::Carry(1), Shown::Moved, 3, HELD),
];

/// What a worker that carries a message cannot do, nor another in its place.
static ONE_CARRIED: [Wanted; 7] = [
    Wanted(Step::Carry(1), NOT_POSSIBLE, 3, HELD),
    Wanted(Step::Turn(1, 0), NOT_POSSIBLE, 3, HELD),
    Wanted(Step::PutBack(1), NOT_POSSIBLE, 3, HELD),
    Wanted(Step::Drop(1), NOT_POSSIBLE, 3, HELD),
    Wanted(Step::Deliver(2), NOT_POSSIBLE, 3, HELD),
    Wanted(Step::Deliver(0), NOT_POSSIBLE, 3, HELD),
    Wanted(Step::Deliver(3), NOT_POSSIBLE, 3, HELD),
];

/// It delivers the message, once.
static ONE_DELIVERED: [Wanted; 2] = [
    Wanted(Step::Deliver(1), Shown::Posted(1, Some(WOKEN)), 3, HELD),
    Wanted(Step::Deliver(1), NOT_POSSIBLE, 3, HELD),
];

/// A worker whose machine has sent two messages carries the first one.
fn carries_alone<T: Pooled>(rt: &Host<impl Abort>, mut pool: T) {
    does_all(rt, &mut pool, TWO_SENT.as_slice());
    does_all(rt, &mut pool, NONE_CARRIED.as_slice());
    carries(rt, &pool, Some((1, 10)));
    does_all(rt, &mut pool, ONE_CARRIED.as_slice());
    carries(rt, &pool, Some((1, 10)));
    does_all(rt, &mut pool, ONE_DELIVERED.as_slice());
    carries(rt, &pool, None);
    drop(pool);
}

#[test]
fn who_carries_does_nothing_else(rt: HostRuntime) {
    let rt = Host::new(rt);
    carries_alone(&rt, both(&rt));
    rt.end();
}

/// There is no token in the hand, and then its machine has sent nothing.
static NO_MESSAGE: [Wanted; 7] = [
    Wanted(Step::Carry(1), NOT_POSSIBLE, 0, FREE),
    Wanted(Step::Post(FIRST, Entry::Cast, 0), POSTED, 1, FREE),
    GIVEN,
    TAKEN,
    Wanted(Step::Carry(1), NOT_POSSIBLE, 1, HELD),
    Wanted(Step::Carry(0), NOT_POSSIBLE, 1, HELD),
    Wanted(Step::Carry(3), NOT_POSSIBLE, 1, HELD),
];

#[test]
fn a_carry_wants_a_message(rt: HostRuntime) {
    let rt = Host::new(rt);
    does_one_list(&rt, both(&rt), NO_MESSAGE.as_slice());
    rt.end();
}

/// A message is delivered to the machine that sent it.
static COMES_BACK: [Wanted; 3] = [
    Wanted(Step::Carry(1), Shown::Moved, 3, HELD),
    Wanted(Step::Deliver(1), Shown::Posted(2, None), 4, HELD),
    Wanted(Step::Turn(1, 0), Shown::Handled(2, Kind::Info), 5, FREE),
];

#[test]
fn a_machine_sends_to_itself(rt: HostRuntime) {
    let rt = Host::new(rt);
    does_both(
        &rt,
        both(&rt),
        ONE_TO_ITSELF.as_slice(),
        COMES_BACK.as_slice(),
    );
    rt.end();
}

/// The target of a message is not there.
static IS_LOST: [Wanted; 3] = [
    Wanted(Step::Carry(1), Shown::Moved, 3, HELD),
    Wanted(
        Step::Deliver(1),
        Shown::Lost(Refusal::NoSuchMachine),
        3,
        HELD,
    ),
    Wanted(Step::Turn(1, 0), Shown::Rested, 3, FREE),
];

#[test]
fn a_message_to_nobody_is_lost(rt: HostRuntime) {
    let rt = Host::new(rt);
    does_both(&rt, both(&rt), ONE_TO_NOBODY.as_slice(), IS_LOST.as_slice());
    rt.end();
}

/// The last number that an event gets.
const LAST: u64 = NUMBER_LIMIT - 1;

/// Elements go behind others, for which places are reserved.
fn append<T: Drop>(rt: &impl Abort, all: &mut Vec<T>, others: Vec<T>) {
    for other in others {
        add(rt, all, other);
    }
}

/// A pool of two workers and two machines; the first event of the second one gets this number.
fn with_last_number(rt: &Host<impl Abort>, alloc: Global, last: u64) -> PoolWorld<Plain>
    requires least { 1 ≤ last }
    requires greatest { last < 2 ^ 63 }
{
    let firsts = cores_from(rt, alloc, [FIRST].as_slice(), 1);
    let seconds = cores_from(rt, alloc, [SECOND].as_slice(), last);
    let mut cores = with_reserved(rt, alloc, 2);
    append(rt, &mut cores, firsts);
    append(rt, &mut cores, seconds);
    opened_with(rt, alloc, 2, cores, [FIRST, SECOND].as_slice())
}

/// The first message gets the last number, and there is none for the second one.
static ONE_NUMBER: [Wanted; 5] = [
    Wanted(Step::Carry(1), Shown::Moved, 3, HELD),
    Wanted(Step::Deliver(1), Shown::Posted(LAST, Some(WOKEN)), 3, HELD),
    Wanted(Step::Carry(1), Shown::Moved, 4, HELD),
    Wanted(Step::Deliver(1), Shown::Lost(Refusal::Exhausted), 4, HELD),
    Wanted(Step::Turn(1, 0), Shown::Rested, 4, FREE),
];

#[test]
fn a_message_past_the_last_number_is_lost(rt: HostRuntime) {
    let rt = Host::new(rt);
    let pool = with_last_number(&rt, rt.alloc(), LAST);
    does_both(&rt, pool, TWO_SENT.as_slice(), ONE_NUMBER.as_slice());
    rt.end();
}

/// The sender is stopped. Either worker takes one of its messages and delivers it, and then its token is retired.
static AFTER_THE_END: [Wanted; 13] = [
    Wanted(Step::Stop(FIRST, 9), Shown::Stopped, 3, HELD),
    Wanted(Step::Turn(1, 0), Shown::Moved, 3, HELD),
    Wanted(Step::PutBack(1), Shown::Moved, 3, FREE),
    Wanted(Step::Take(2, 1), Shown::Moved, 3, HELD_BY_SECOND),
    Wanted(Step::Carry(2), Shown::Moved, 4, HELD_BY_SECOND),
    Wanted(
        Step::Deliver(2),
        Shown::Posted(1, Some(WOKEN)),
        4,
        HELD_BY_SECOND,
    ),
    Wanted(Step::Turn(2, 0), Shown::Moved, 4, HELD_BY_SECOND),
    Wanted(Step::Drop(2), Shown::Moved, 4, FREE),
    Wanted(Step::Give(TOKEN, 0), Shown::Moved, 4, FREE),
    Wanted(Step::Take(1, 0), Shown::Moved, 4, HELD),
    Wanted(Step::Carry(1), Shown::Moved, 5, HELD),
    Wanted(Step::Deliver(1), Shown::Posted(2, None), 5, HELD),
    Wanted(Step::Turn(1, 0), Shown::Rested, 5, FREE),
];

#[test]
fn a_message_outlasts_its_sender(rt: HostRuntime) {
    let rt = Host::new(rt);
    does_both(
        &rt,
        both(&rt),
        TWO_SENT.as_slice(),
        AFTER_THE_END.as_slice(),
    );
    rt.end();
}

/// The message is carried and delivered, and the second machine is issued a token.
static DELIVERED: [Wanted; 2] = [
    Wanted(Step::Carry(1), Shown::Moved, 3, HELD),
    Wanted(Step::Deliver(1), Shown::Posted(1, Some(WOKEN)), 3, HELD),
];

/// Each worker's hand holds a token.
const BOTH_HELD: Hands = (Some(TOKEN), Some(WOKEN));

/// The second worker takes the token, and serves the second machine.
static SERVED: [Wanted; 3] = [
    Wanted(Step::Give(WOKEN, 0), Shown::Moved, 3, HELD),
    Wanted(Step::Take(2, 0), Shown::Moved, 3, BOTH_HELD),
    Wanted(Step::Turn(2, 0), Shown::Handled(1, Kind::Info), 3, HELD),
];

/// A message is carried and delivered, and the worker of its target takes the token that it woke.
fn wakes<T: Pooled>(rt: &Host<impl Abort>, mut pool: T) {
    does_all(rt, &mut pool, TWO_SENT.as_slice());
    does_all(rt, &mut pool, DELIVERED.as_slice());
    have_callers(rt, &pool, WOKEN);
    does_all(rt, &mut pool, SERVED.as_slice());
    drop(pool);
}

#[test]
fn a_delivery_wakes_its_target(rt: HostRuntime) {
    let rt = Host::new(rt);
    wakes(&rt, both(&rt));
    rt.end();
}
