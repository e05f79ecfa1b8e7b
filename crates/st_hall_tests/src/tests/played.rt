//! Rows are played at a door. Where a call finds no memory, nothing that can be read has changed, what it was given comes
//! back, and it is made again.
use super::again::{is_given_back, is_made_again};
use super::came::Came;
use super::door_row::{Act, Left, Row, Serving};
use super::doors::{first_port, no_door, port_of};
use super::doorway::Doorway;
use super::host::{Host, Platform, got, holds, same};
use super::scheduling::Scheduling;
use super::sending::Sending;
use super::served::serve;
use super::shown::Shown;
use super::tokens::is_token;
use super::tray::Tray;
use super::waker::waker_for;
use st_client::{Collection, Token, Wake, check, check_any, reply};
use st_door::DoorContent;
use std::mem;
use std::process::Abort;
use std::sync::Wait;

/// How many events were posted through a port, how many wait at its door, and how many entries the door's journal has.
type Seen = (u64, usize, u64);

/// What is seen of a door. Where there is no memory, it is looked at again.
fn seen(rt: &Host<impl Abort>, threads: &impl Wait, door: &mut Doorway) -> Seen {
    let look = match door.port.look(threads) {
        Ok(look) => look,
        Err(refusal) => {
            is_made_again(rt, refusal);
            let again = door.port.look(threads);
            got(rt, "one allocation alone is refused", again)
        }
    };
    let seen = (door.port.count(), look.waiting, look.entries);
    drop(look);
    seen
}

/// Posts an event, which is one.
fn posts(
    rt: &Host<impl Abort>,
    threads: &impl Wait,
    door: &mut Doorway,
    sending: Sending,
    content: DoorContent,
) -> Came {
    let before = seen(rt, threads, door);
    let came = match door.send(threads, sending, content) {
        Ok(came) => came,
        Err(refused) => {
            is_given_back(rt, &refused, content);
            same(rt, "nothing was posted", &seen(rt, threads, door), &before);
            let again = door.send(threads, sending, refused.value);
            got(rt, "one allocation alone is refused", again)
        }
    };
    let posted = door.port.count().checked_sub(before.0);
    holds(rt, "one event was posted", posted == Some(1));
    came
}

/// Looks at the number of an event, which was posted but by a call, and answers what is left of its token.
fn sent(rt: &impl Abort, word: &str, came: Came, wanted: u64) -> Option<Token> {
    let Came::Sent(sent) = came else {
        panic!(rt; "{word}: it is posted")
    };
    same(rt, word, &sent.number, &wanted);
    sent.left
}

/// A tray that found no memory for a token, if it came back, is handed it again.
fn is_scheduled(
    rt: &Host<impl Abort>,
    threads: &impl Wait,
    tray: &Tray,
    word: &str,
    left: Option<Token>,
) {
    if let Some(token) = left {
        rt.retry();
        holds(rt, word, tray.wake(threads, token) == Ok(()));
    }
}

/// Looks at what is left of an event's token, whose door this tray has.
fn is_left(
    rt: &Host<impl Abort>,
    threads: &impl Wait,
    tray: &Tray,
    word: &str,
    left: Option<Token>,
    wanted: Left,
) {
    match wanted {
        Left::Outstanding => is_token(rt, word, left, None),
        Left::Scheduled => is_scheduled(rt, threads, tray, word, left),
        Left::Back(token) => is_token(rt, word, left, Some(token)),
        Left::SomeBack => holds(rt, word, left.is_some()),
    }
}

/// What is kept for the request that was sent last.
fn kept(rt: &Host<impl Abort>, threads: &impl Wait, door: &Doorway) -> Came {
    let id = door.asked.as_ref().expect(rt, "it was sent");
    let collected = match check(threads, id) {
        Ok(collected) => collected,
        Err(refusal) => {
            is_made_again(rt, refusal);
            got(rt, "one allocation alone is refused", check(threads, id))
        }
    };
    Came::of_kept(collected)
}

/// Calls for the length of the code. What that came to. Where that is not what is wanted since the reply could not be handed
/// out, or the door not served, for want of memory, the request stands, and the reply is asked for.
fn called(rt: &Host<impl Abort>, threads: &impl Wait, door: &mut Doorway, wanted: Came) -> Came {
    let came = posts(rt, threads, door, Sending::Call, DoorContent::CodeLength);
    if came == wanted {
        return came;
    }
    match came {
        Came::Uncollected(refusal) => is_made_again(rt, refusal),
        Came::Unscheduled(_, left) => {
            rt.retry();
            let id = door.asked.as_ref().expect(rt, "it was sent");
            serve(rt, threads, id.machine(), left);
        }
        _ => return came,
    }
    kept(rt, threads, door)
}

/// Adds the request that was sent last to those that are gathered.
fn adds(rt: &Host<impl Abort>, door: &mut Doorway, word: &str, label: char) {
    let before = door.size();
    let id = door.asked.take().expect(rt, "it was sent");
    if let Err(refused) = door.gathered.add(id, label) {
        holds(rt, "nothing was added", door.size() == before);
        is_made_again(rt, refused.refusal);
        let again = door.gathered.add(refused.value, label);
        got(rt, "one allocation alone is refused", again);
    }
    holds(rt, word, door.size() > before);
}

/// What asking about the requests that are gathered shows.
fn shown(rt: &Host<impl Abort>, threads: &impl Wait, door: &mut Doorway) -> Shown {
    let before = door.size();
    let checked = match check_any(threads, &mut door.gathered) {
        Ok(checked) => checked,
        Err(refusal) => {
            is_made_again(rt, refusal);
            holds(rt, "nothing is taken out", door.size() == before);
            let again = check_any(threads, &mut door.gathered);
            got(rt, "one allocation alone is refused", again)
        }
    };
    Shown::of(checked)
}

/// Takes the only token from a tray.
fn takes(rt: &impl Abort, threads: &impl Wait, tray: &Tray, word: &str, wanted: Token) {
    holds(rt, "one token waits", tray.len(threads) == 1);
    same(rt, word, &tray.take(threads), &wanted);
}

/// Replies to the request of the event of a number. Whether that is taken.
fn replied(
    rt: &Host<impl Abort>,
    threads: &impl Wait,
    door: &Doorway,
    number: u64,
    digits: usize,
) -> bool {
    let machine = door.port.machine();
    let tag = machine.tag(number);
    let content = DoorContent::Length(digits);
    match reply(threads, machine, tag, content) {
        Ok(is_taken) => is_taken,
        Err(refused) => {
            is_given_back(rt, &refused, content);
            let again = reply(threads, machine, tag, refused.value);
            got(rt, "one allocation alone is refused", again)
        }
    }
}

/// Plays a row with the door.
fn does(
    rt: &Host<impl Abort>,
    threads: &impl Wait,
    door: &mut Doorway,
    word: &str,
    serving: Serving,
) {
    match serving {
        Serving::Takes(token) => takes(rt, threads, &door.waker.tray, word, token),
        Serving::Serves(token) => serve(rt, threads, door.port.machine(), token),
        Serving::Replies(number, digits, wanted) => {
            let is_taken = replied(rt, threads, door, number, digits);
            same(rt, word, &is_taken, &wanted);
        }
        Serving::Stops(reason) => {
            got(rt, word, door.port.machine().stop(threads, reason));
        }
        Serving::TurnsTo(id) => {
            let port = port_of(rt, threads, &door.doors, id);
            let before = mem::replace(&mut door.port, port);
            drop(mem::replace(&mut door.before, Some(before)));
        }
    }
}

/// Plays a row.
fn plays(rt: &Host<impl Abort>, threads: &impl Wait, door: &mut Doorway, word: &str, act: Act) {
    match act {
        Act::Sends(sending, content, number, left) => {
            let came = posts(rt, threads, door, sending, content);
            let token = sent(rt, word, came, number);
            is_left(rt, threads, &door.waker.tray, word, token, left);
        }
        Act::Calls(wanted) => {
            let came = called(rt, threads, door, wanted);
            same(rt, word, &came, &wanted);
        }
        Act::Checks(wanted) => same(rt, word, &kept(rt, threads, door), &wanted),
        Act::Gathers(label) => adds(rt, door, word, label),
        Act::Shows(wanted) => same(rt, word, &shown(rt, threads, door), &wanted),
        Act::Lists(wanted) => {
            let list = got(rt, "there is memory", door.gathered.to_list());
            holds(rt, word, list.as_slice() == wanted);
            drop(list);
        }
        Act::Counts(wanted) => same(rt, word, &door.size(), &wanted),
        Act::Door(serving) => does(rt, threads, door, word, serving),
    }
}

/// Plays rows at the first of some doors, each of which has a name or none.
fn rows_agree(
    rt: &Host<impl Abort + AllocGlobal>,
    threads: &impl Wait,
    names: &[Option<&str>],
    scheduling: Scheduling,
    rows: &[Row],
) {
    let mut doors = no_door(rt, rt.alloc(), &[1, 2, 3, 4]);
    let port = first_port(rt, threads, &mut doors, names);
    let waker = waker_for(rt, rt.alloc(), port.machine(), scheduling);
    let doorway = Doorway {
        doors,
        port,
        before: None,
        waker,
        asked: None,
        gathered: Collection::new(rt.alloc()),
    };
    let mut door = rt.boxed(rt.alloc(), doorway);
    for (word, act) in rows {
        plays(rt, threads, &mut door, *word, *act);
    }
    drop(door);
}

/// A whole test: rows are played at one door without a name.
pub fn one_door<R: Platform>(rt: R, scheduling: Scheduling, rows: &[Row]) {
    let threads = rt;
    let rt = Host::new(rt);
    rows_agree(&rt, &threads, &[None], scheduling, rows);
    rt.end();
}

/// A whole test: rows are played at the first of some doors, and all find memory.
pub fn doors_with_memory<R: Platform>(
    rt: R,
    names: &[Option<&str>],
    scheduling: Scheduling,
    rows: &[Row],
) {
    let threads = rt;
    let rt = Host::with_memory(rt);
    rows_agree(&rt, &threads, names, scheduling, rows);
    rt.end_with_memory();
}
