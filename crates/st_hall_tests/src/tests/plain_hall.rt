//! A hall of machines that share a mark, and how rows are played there. Where a call finds no memory, nothing that can be
//! read has changed, what it was given comes back, and it is made again.
use super::answer::Answer;
use super::ask::Ask;
use super::begun::{fill, hall, mark, opened, running};
use super::cast::posts;
use super::hall_row::{Act, Row};
use super::host::{Host, Platform, holds, same};
use super::looks::shows;
use super::mark::Mark;
use super::plain::Plain;
use super::tokens::comes_back;
use st_hall::{Hall, Hand, MachineId, Port, Reason, Refusal, Token};
use std::alloc::Global;
use std::mem;
use std::process::Abort;
use std::sync::{Arc, Wait};

/// A hall of machines that share a mark; a port of one of them, and the token that was issued last.
#[derive(Drop)]
pub struct PlainHall<R: Wait + Drop> {
    hall: Hall<Plain, R>,
    mark: Arc<Mark>,
    port: Option<Port<Plain>>,
    token: Option<Token>,
}

impl<R: Wait + Drop> PlainHall<R> {
    /// What can be read of the hall with no memory: how many machines there are, and whose the name front is.
    fn see(&self) -> (usize, Result<MachineId, Refusal>) {
        (self.hall.len(), self.hall.whereis("front"))
    }
}

/// Starts a machine under a name, or under none, and answers its id: it runs, and has no work.
fn start<R: Wait + Drop>(
    rt: &Host<impl Abort>,
    hall: &PlainHall<R>,
    name: Option<&str>,
) -> Result<MachineId, Refusal> {
    let before = hall.see();
    let plain = Plain::new(&hall.mark).expect(rt, "an owner takes no memory");
    let refused = match hall.hall.start(name, plain, &(), 0) {
        Ok(started) => return Ok(running(rt, started)),
        Err(refused) => refused,
    };
    holds(rt, "a refusal changes nothing", hall.see() == before);
    if refused.refusal != Refusal::NoMemory {
        return Err(refused.refusal);
    }
    rt.retry();
    match hall.hall.start(name, refused.value, &(), 0) {
        Ok(started) => Ok(running(rt, started)),
        Err(refused) => Err(refused.refusal),
    }
}

/// Has the machine of an id say its id, or stops it for a reason, if there is one.
fn found<R: Wait + Drop>(
    threads: &impl Wait,
    hall: &PlainHall<R>,
    id: MachineId,
    stopping: Option<Reason>,
) -> Answer {
    let machine = match hall.hall.machine(id) {
        Ok(machine) => machine,
        Err(refusal) => return Answer::Refused(refusal),
    };
    let found = match stopping {
        Some(reason) => Answer::of_word(machine.stop(threads, reason)),
        None => Answer::Id(machine.id()),
    };
    drop(machine);
    found
}

/// Makes a call. What it answers.
fn answer<R: Wait + Drop>(
    rt: &Host<impl Abort>,
    threads: &impl Wait,
    hall: &PlainHall<R>,
    ask: Ask,
) -> Answer {
    match ask {
        Ask::Start(name) => Answer::of_id(start(rt, hall, name)),
        Ask::Whereis(name) => Answer::of_id(hall.hall.whereis(name)),
        Ask::Find(id) => found(threads, hall, id, None),
        Ask::Unregister(name) => Answer::of_done(hall.hall.unregister(name)),
        Ask::Remove(id) => Answer::of_done(hall.hall.remove_stopped(id)),
        Ask::Stop(id, reason) => found(threads, hall, id, Some(reason)),
        Ask::Len => {
            let len = hall.hall.len();
            let is_empty = hall.hall.is_empty();
            holds(rt, "it is empty without machines", is_empty == (len == 0));
            Answer::Count(len)
        }
    }
}

/// Looks that these are the names of a hall, in order.
fn names_are<R: Wait + Drop>(
    rt: &Host<impl Abort>,
    alloc: Global,
    hall: &PlainHall<R>,
    word: &str,
    wanted: &[(&str, MachineId)],
) {
    let names = match hall.hall.names(alloc) {
        Ok(names) => names,
        Err(_) => {
            rt.retry();
            let again = hall.hall.names(alloc);
            again.expect(rt, "one allocation alone is refused")
        }
    };
    same(rt, word, &names.len(), &wanted.len());
    for ((name, id), wanted) in names.iter().zip(wanted) {
        same(rt, word, &name.as_str(), &wanted.0);
        same(rt, word, id, &wanted.1);
    }
    drop(names);
}

/// Looks that these are the ids of a hall's machines, by rising slot.
fn ids_are<R: Wait + Drop>(
    rt: &Host<impl Abort>,
    alloc: Global,
    hall: &PlainHall<R>,
    word: &str,
    wanted: &[MachineId],
) {
    let ids = match hall.hall.ids(alloc) {
        Ok(ids) => ids,
        Err(_) => {
            rt.retry();
            let again = hall.hall.ids(alloc);
            again.expect(rt, "one allocation alone is refused")
        }
    };
    holds(rt, word, ids.as_slice() == wanted);
    drop(ids);
}

/// Posts an event that inserts one more to the port's machine.
fn issues<R: Wait + Drop>(
    rt: &impl Abort,
    threads: &impl Wait,
    hall: &mut PlainHall<R>,
    word: &str,
    wanted: u64,
) {
    let port = hall.port.as_mut().expect(rt, "a port");
    let (number, token) = posts(rt, threads, port);
    same(rt, word, &number, &wanted);
    holds(rt, "the tokens differ", hall.token != Some(token));
    hall.token = Some(token);
}

/// Gives the machine of the token that was issued last a turn, and looks whether the token comes back.
fn turns<R: Wait + Drop>(rt: &impl Abort, hall: &PlainHall<R>, word: &str, comes: bool) {
    let token = hall.token.expect(rt, "a token");
    let mut hand = Hand::new();
    let turned = hall.hall.turn(token, 5, &mut hand);
    drop(hand);
    comes_back(rt, word, turned, token, comes);
}

/// Serves the machine of the token that was issued last, and looks whether the token comes back, and why nothing was done.
fn serves<R: Wait + Drop>(
    rt: &impl Abort,
    hall: &PlainHall<R>,
    word: &str,
    now: u64,
    comes: bool,
    refusal: Option<Refusal>,
) {
    let token = hall.token.expect(rt, "a token");
    let mut hand = Hand::new();
    let served = hall.hall.serve(token, now, &mut hand);
    drop(hand);
    comes_back(rt, word, served.token, token, comes);
    same(rt, word, &served.refusal, &refusal);
}

/// Plays a row.
fn plays<R: Wait + Drop>(
    rt: &Host<impl Abort + AllocGlobal>,
    threads: &impl Wait,
    hall: &mut PlainHall<R>,
    word: &str,
    act: Act,
) {
    match act {
        Act::Asks(ask, wanted) => same(rt, word, &answer(rt, threads, hall, ask), &wanted),
        Act::Names(wanted) => names_are(rt, rt.alloc(), hall, word, wanted),
        Act::Ids(wanted) => ids_are(rt, rt.alloc(), hall, word, wanted),
        Act::Opens(id) => {
            let port = opened(rt, threads, &hall.hall, id);
            drop(mem::replace(&mut hall.port, Some(port)));
        }
        Act::Posts(number) => issues(rt, threads, hall, word, number),
        Act::Turns(comes) => turns(rt, hall, word, comes),
        Act::Serves(now, comes, refusal) => serves(rt, hall, word, now, comes, refusal),
        Act::Shows(event, inserted) => {
            let port = hall.port.as_mut().expect(rt, "a port");
            shows(rt, threads, port, word, event, inserted);
        }
    }
}

/// Plays rows at a hall with so many machines.
fn rows_agree<R: Wait + Copy + Drop>(
    rt: &Host<impl Abort + AllocGlobal>,
    threads: R,
    count: usize,
    rows: &[Row],
) {
    let hall = PlainHall {
        hall: hall(rt, threads, true),
        mark: mark(rt, true),
        port: None,
        token: None,
    };
    let mut hall = rt.boxed(rt.alloc(), hall);
    fill(rt, &hall.hall, &hall.mark, count);
    for (word, act) in rows {
        plays(rt, &threads, &mut hall, *word, *act);
    }
    drop(hall);
}

/// A whole test: rows are played at a hall without machines.
pub fn empty_hall<R: Platform>(rt: R, rows: &[Row]) {
    let threads = rt;
    let rt = Host::new(rt);
    rows_agree(&rt, threads, 0, rows);
    rt.end();
}

/// A whole test: rows are played at a hall with so many machines, and all find memory.
pub fn hall_with_memory<R: Platform>(rt: R, count: usize, rows: &[Row]) {
    let threads = rt;
    let rt = Host::with_memory(rt);
    rows_agree(&rt, threads, count, rows);
    rt.end_with_memory();
}
