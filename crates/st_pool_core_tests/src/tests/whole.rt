//! All that can be read of a pool.
use super::host::{Host, holds};
use super::opened::{is_made_again, machine_id};
use super::pooled::{Pooled, Seen};
use st_core::PlainList;
use st_events::Token;
use st_pool_core::Message;
use std::process::Abort;

/// All that can be read of a pool of at most five machines and three workers. Of each machine there are its token,
/// and whether callers have it; and there is one lane, one hand and one message more than there are.
#[derive(PartialEq, Drop)]
pub struct Whole {
    machines: [Option<Seen>; 5],
    tokens: [Option<(Token, bool)>; 5],
    callers: PlainList<Token>,
    lanes: [Option<PlainList<Token>>; 5],
    hands: [Option<Token>; 5],
    carried: [Option<Message<u32>>; 5],
}

/// The tokens that callers have. Where memory was refused, they are asked for again.
pub fn callers<T: Pooled>(rt: &Host<impl Abort>, pool: &T) -> PlainList<Token> {
    match pool.try_callers() {
        Ok(tokens) => tokens,
        Err(refusal) => {
            is_made_again(rt, refusal);
            pool.try_callers()
                .expect(rt, "one allocation alone is refused")
        }
    }
}

/// The tokens of a lane. Where memory was refused, they are asked for again.
pub fn lane<T: Pooled>(rt: &Host<impl Abort>, pool: &T, lane: usize) -> Option<PlainList<Token>> {
    match pool.try_lane(lane) {
        Ok(tokens) => tokens,
        Err(refusal) => {
            is_made_again(rt, refusal);
            pool.try_lane(lane)
                .expect(rt, "one allocation alone is refused")
        }
    }
}

/// Looks that callers have this token, and no other.
pub fn have_callers<T: Pooled>(rt: &Host<impl Abort>, pool: &T, token: Token) {
    let tokens = callers(rt, pool);
    let is_alone = tokens.as_slice() == [token].as_slice();
    holds(rt, "callers have this token", is_alone);
    drop(tokens);
}

/// Looks that a lane has this token, and no other.
pub fn has_lane<T: Pooled>(rt: &Host<impl Abort>, pool: &T, number: usize, token: Token) {
    let tokens = lane(rt, pool, number).expect(rt, "there is such a lane");
    let is_alone = tokens.as_slice() == [token].as_slice();
    holds(rt, "the lane has this token", is_alone);
    drop(tokens);
}

/// What can be read of a machine.
fn machine<T: Pooled>(pool: &T, slot: usize) -> Option<Seen> {
    pool.see(machine_id(slot))
}

/// A machine's outstanding token, and whether callers have it.
fn token<T: Pooled>(pool: &T, slot: usize) -> Option<(Token, bool)> {
    let token = pool.token_of(machine_id(slot))?;
    Some((token, pool.have_callers(token)))
}

/// The message that a worker carries, as a copy.
fn message<T: Pooled>(pool: &T, worker: usize) -> Option<Message<u32>> {
    let message = pool.in_transit(worker)?;
    Some(Message {
        sender: message.sender,
        number: message.number,
        target: message.target,
        content: message.content,
    })
}

/// What can be read of the machines.
fn machines<T: Pooled>(pool: &T) -> [Option<Seen>; 5] {
    [
        machine(pool, 0),
        machine(pool, 1),
        machine(pool, 2),
        machine(pool, 3),
        machine(pool, 4),
    ]
}

/// The machines' outstanding tokens.
fn tokens<T: Pooled>(pool: &T) -> [Option<(Token, bool)>; 5] {
    [
        token(pool, 0),
        token(pool, 1),
        token(pool, 2),
        token(pool, 3),
        token(pool, 4),
    ]
}

/// The tokens of the lanes.
fn lanes<T: Pooled>(rt: &Host<impl Abort>, pool: &T) -> [Option<PlainList<Token>>; 5] {
    [
        lane(rt, pool, 0),
        lane(rt, pool, 1),
        lane(rt, pool, 2),
        lane(rt, pool, 3),
        lane(rt, pool, 4),
    ]
}

/// The tokens in the workers' hands.
fn hands<T: Pooled>(pool: &T) -> [Option<Token>; 5] {
    [
        pool.in_hand(0),
        pool.in_hand(1),
        pool.in_hand(2),
        pool.in_hand(3),
        pool.in_hand(4),
    ]
}

/// The messages that the workers carry.
fn messages<T: Pooled>(pool: &T) -> [Option<Message<u32>>; 5] {
    [
        message(pool, 0),
        message(pool, 1),
        message(pool, 2),
        message(pool, 3),
        message(pool, 4),
    ]
}

/// All that can be read of a pool.
pub fn read_all<T: Pooled>(rt: &Host<impl Abort>, pool: &T) -> Whole {
    Whole {
        machines: machines(pool),
        tokens: tokens(pool),
        callers: callers(rt, pool),
        lanes: lanes(rt, pool),
        hands: hands(pool),
        carried: messages(pool),
    }
}
