//! A hall of machines that send to each other, and how rows are played there. Where a call finds no memory, it is made again.
use super::again::is_made_again;
use super::host::{Host, Platform, got, holds, same};
use super::ring::Ring;
use super::ring_row::{Act, Ending, Row};
use super::rings::{opened, starts};
use super::tokens::{comes_back, is_token};
use st_hall::{Hall, Hand, MachineId, Port, Refusal, Registry, Served, Token, Undelivered};
use st_lock::Entry;
use st_pool::Machines;
use std::mem;
use std::process::Abort;
use std::sync::Wait;

/// A hall of machines that send; a port of one of them, and the token that was issued to it last.
#[derive(Drop)]
pub struct RingHall<R: Wait + Drop> {
    hall: Hall<Ring, R>,
    port: Option<Port<Ring>>,
    token: Option<Token>,
}

/// Posts 1 to the port's machine, which rests, and keeps the token that was issued. Where there is no memory, it is posted
/// again.
fn posts<R: Wait + Drop>(rt: &Host<impl Abort>, threads: &impl Wait, hall: &mut RingHall<R>) {
    let port = hall.port.as_mut().expect(rt, "a port");
    let posted = match port.post(threads, Entry::Cast, 1) {
        Ok(posted) => posted,
        Err(refused) => {
            is_made_again(rt, refused.refusal);
            let again = port.post(threads, Entry::Cast, refused.value);
            got(rt, "one allocation alone is refused", again)
        }
    };
    hall.token = Some(posted.wake.expect(rt, "it was at rest"));
}

/// Looks which token a turn has woken, and that no message is carried.
fn has_woken(rt: &impl Abort, hand: Hand<u32>, word: &str, wanted: Option<Token>) {
    is_token(rt, word, hand.woken, wanted);
    holds(rt, "no message is carried", hand.message.is_none());
    drop(hand);
}

/// The hall gives the machine of a token a turn. The token comes back or not, another is woken or not, and no message is
/// carried.
fn turns<R: Wait + Drop>(
    rt: &impl Abort,
    hall: &RingHall<R>,
    word: &str,
    turn: (Option<Token>, u64),
    comes: bool,
    woken: Option<Token>,
) {
    let token = token_of(rt, turn.0, hall.token);
    let mut hand = Hand::new();
    let turned = hall.hall.turn(token, turn.1, &mut hand);
    comes_back(rt, word, turned, token, comes);
    has_woken(rt, hand, word, woken);
}

/// What comes of it that the hall serves the machine of a token. Where there is no memory, the token comes back and nothing is
/// woken, and the same is asked for again.
fn served<R: Wait + Drop>(
    rt: &Host<impl Abort>,
    hall: &RingHall<R>,
    token: Token,
    hand: &mut Hand<u32>,
) -> Served {
    hand.woken = None;
    let served = hall.hall.serve(token, 5, hand);
    let Some(refusal) = served.refusal else {
        return served;
    };
    is_token(rt, "the token comes back", served.token, Some(token));
    is_token(rt, "nothing was woken", hand.woken, None);
    is_made_again(rt, refusal);
    hand.woken = None;
    hall.hall.serve(token, 5, hand)
}

/// The hall serves the machine of a token. The token comes back or not, another is woken or not, and no message is carried.
fn serves<R: Wait + Drop>(
    rt: &Host<impl Abort>,
    hall: &RingHall<R>,
    word: &str,
    token: Option<Token>,
    comes: bool,
    woken: Option<Token>,
) {
    let token = token_of(rt, token, hall.token);
    let mut hand = Hand::new();
    let served = served(rt, hall, token, &mut hand);
    same(rt, word, &served.refusal, &None);
    comes_back(rt, word, served.token, token, comes);
    has_woken(rt, hand, word, woken);
}

/// The machine of a token has its last turn once it was found, and no other by that token.
fn finds<R: Wait + Drop>(rt: &impl Abort, hall: &RingHall<R>, token: Token) {
    let mut hand = Hand::new();
    let found = got(rt, "it is there", hall.hall.find(token.machine));
    same(rt, "its id", &found.id(), &token.machine);
    holds(rt, "it rests", found.turn(token, 5, &mut hand) == None);
    hand.woken = None;
    let refusal = found.serve(token, 5, &mut hand).refusal;
    drop(found);
    drop(hand);
    holds(rt, "it has rested", refusal == Some(Refusal::NotQueued));
}

/// Does what is to end the machine of an id.
fn ends<R: Wait + Drop>(
    rt: &impl Abort,
    threads: &impl Wait,
    hall: &RingHall<R>,
    word: &str,
    id: MachineId,
    ending: Ending,
) {
    let machine = hall.hall.machine(id).expect(rt, "it is there");
    match ending {
        Ending::Stops(reason, last) => {
            same(rt, word, &machine.stop(threads, reason), &Ok(last));
        }
        Ending::TakesOut => {
            let token = hall.token.expect(rt, "a token");
            let taken = machine.take_out(threads, token);
            holds(rt, word, matches!(&taken, Ok(Some(_))));
            drop(taken);
        }
    }
    drop(machine);
}

/// A token, or where it is left out the one that was issued last.
fn token_of(rt: &impl Abort, token: Option<Token>, last: Option<Token>) -> Token {
    match token {
        Some(token) => token,
        None => last.expect(rt, "a token"),
    }
}

/// Plays a row.
fn plays<R: Wait + Drop>(
    rt: &Host<impl Abort>,
    threads: &impl Wait,
    hall: &mut RingHall<R>,
    word: &str,
    act: Act,
) {
    match act {
        Act::Starts(to, id) => same(rt, word, &starts(rt, &hall.hall, to), &id),
        Act::Opens(id) => {
            let port = opened(rt, threads, &hall.hall, id);
            drop(mem::replace(&mut hall.port, Some(port)));
        }
        Act::Posts => posts(rt, threads, hall),
        Act::Turns(token, now, comes, woken) => turns(rt, hall, word, (token, now), comes, woken),
        Act::Serves(token, comes, woken) => serves(rt, hall, word, token, comes, woken),
        Act::Finds(token) => finds(rt, hall, token),
        Act::Ends(id, ending) => ends(rt, threads, hall, word, id, ending),
        Act::Removes(id, wanted) => same(rt, word, &hall.hall.remove_stopped(id), &wanted),
        Act::Loses(stopped, missing) => {
            let lost = Undelivered {
                stopped,
                exhausted: 0,
                missing,
            };
            same(rt, word, &hall.hall.undelivered(), &lost);
        }
    }
}

/// Plays rows at a hall without machines.
fn rows_agree<R: Wait + Copy + Drop>(
    rt: &Host<impl Abort + AllocGlobal>,
    threads: R,
    rows: &[Row],
) {
    let hall = RingHall {
        hall: Hall::new(threads, Registry::new(rt.alloc())),
        port: None,
        token: None,
    };
    let mut hall = rt.boxed(rt.alloc(), hall);
    for (word, act) in rows {
        plays(rt, &threads, &mut hall, *word, *act);
    }
    drop(hall);
}

/// A whole test: rows are played at a hall without machines.
pub fn empty_hall<R: Platform>(rt: R, rows: &[Row]) {
    let threads = rt;
    let rt = Host::new(rt);
    rows_agree(&rt, threads, rows);
    rt.end();
}

/// A whole test: rows are played at a hall without machines, and all find memory.
pub fn hall_with_memory<R: Platform>(rt: R, rows: &[Row]) {
    let threads = rt;
    let rt = Host::with_memory(rt);
    rows_agree(&rt, threads, rows);
    rt.end_with_memory();
}
