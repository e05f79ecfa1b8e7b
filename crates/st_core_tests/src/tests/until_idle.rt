//! Turns one after another, until there is nothing to handle.
use super::host::{Host, holds, is_count, same};
use super::machine::{Machine, read_all};
use super::row::Row;
use super::row::Row::Tells;
use super::seen::{Seen, is_all, sees};
use super::shown::Shown::{Posted, Stopped};
use super::table::Table;
use super::table_machine::{AT_REST, PLAIN, RESTING};
use super::tested::{does, play, tell};
use super::told::Told::{Cast, Stop, Turn};
use super::told::tag;
use st_core::{Core, Refusal, Turns, TurnsEnd};
use std::alloc::Global;
use std::process::Abort;

/// Makes so many single turns of a machine.
fn turns_alone<T: Machine>(rt: &Host<impl Abort>, machine: &mut T, now: u64, count: u64) {
    for _ in 0..count {
        let _ = tell(rt, machine, Turn(now));
    }
}

/// Makes the turns again that are left of so many, since a turn found no memory, and as many single turns of another
/// machine.
fn turned_again<T: Machine>(
    rt: &Host<impl Abort>,
    machine: &mut T,
    other: &mut T,
    now: u64,
    left: u64,
) -> Turns {
    rt.retry();
    let rest = machine.call_turns(now, left);
    holds(rt, "no more turns than are left", rest.reported <= left);
    turns_alone(rt, other, now, rest.reported);
    rest
}

/// Makes turns of a machine, and as many single turns of another one like it. Where a turn finds no memory, the
/// two are the same, and the call is made again for the turns that are left.
pub fn turned<T: Machine>(
    rt: &Host<impl Abort>,
    machine: &mut T,
    other: &mut T,
    now: u64,
    at_most: u64,
) -> Turns {
    let first = machine.call_turns(now, at_most);
    holds(
        rt,
        "no more turns than are asked for",
        first.reported <= at_most,
    );
    turns_alone(rt, other, now, first.reported);
    is_all(rt, &read_all(rt, machine), &read_all(rt, other));
    if first.end != TurnsEnd::Refused(Refusal::NoMemory) {
        return first;
    }
    let rest = turned_again(rt, machine, other, now, at_most - first.reported);
    Turns {
        reported: first.reported.saturating_add(rest.reported),
        end: rest.end,
    }
}

/// Looks that so many turns were made, and why no more.
pub fn made(rt: &Host<impl Abort>, turns: Turns, reported: u64, end: TurnsEnd) {
    same(rt, "the turns", &turns, &Turns { reported, end });
}

/// Turns by one call: at a moment, at most so many. So many are made, for this reason no more, and so many events wait
/// then.
type Turned = (u64, u64, u64, TurnsEnd, usize);

/// Makes turns of two machines that are alike, of one by one call.
fn both_turn<T: Machine>(rt: &Host<impl Abort>, machine: &mut T, other: &mut T, row: &Turned) {
    let (now, at_most, reported, end, waiting) = *row;
    made(rt, turned(rt, machine, other, now, at_most), reported, end);
    is_count(rt, "so many wait", machine.see().waiting, waiting);
}

/// Looks at a machine that has only begun, where no turn is made of it.
fn turns_nothing<T: Machine>(rt: &Host<impl Abort>, machine: &mut T) {
    same(rt, "the tag", &machine.tag_of(4), &tag(4));
    made(rt, machine.call_turns(5, 3), 0, TurnsEnd::Idle);
    sees(rt, &machine.see(), &RESTING);
}

/// Looks at turns of two machines that are alike, with the events of these posts.
fn all_turn<T: Machine>(
    rt: &Host<impl Abort>,
    machine: &mut T,
    other: &mut T,
    posts: &[Row],
    rows: &[Turned],
) {
    static END: Seen = Seen {
        state: 1,
        latest: 21,
        ..AT_REST
    };
    play(rt, machine, posts);
    play(rt, other, posts);
    for row in rows {
        both_turn(rt, machine, other, row);
    }
    sees(rt, &machine.see(), &END);
    sees(rt, &other.see(), &END);
}

/// Looks at turns of a machine with no event, with the events of these posts, and at its end.
fn turns_until_idle<T: Machine>(
    rt: &Host<impl Abort>,
    alloc: Global,
    posts: &[Row],
    rows: &[Turned],
) {
    let mut machine = T::begun(rt, alloc, &PLAIN);
    let mut other = T::begun(rt, alloc, &PLAIN);
    turns_nothing(rt, &mut machine);
    all_turn(rt, &mut machine, &mut other, posts, rows);
    does(rt, &mut machine, Stop(9), &Stopped(7));
    made(rt, machine.call_turns(22, 9), 0, TurnsEnd::Ended);
    drop(machine);
    drop(other);
}

#[test]
fn turns_are_made_until_nothing_is_left(rt: HostRuntime) {
    static POSTS: [Row; 3] = [
        Tells(Cast(3), Posted(1)),
        Tells(Cast(5), Posted(2)),
        Tells(Cast(5), Posted(3)),
    ];
    static ROWS: [Turned; 3] = [
        (20, 2, 2, TurnsEnd::AtMost, 1),
        (1 << 63, 9, 0, TurnsEnd::Refused(Refusal::Moment), 1),
        (21, 9, 1, TurnsEnd::Idle, 0),
    ];
    let rt = Host::new(rt);
    turns_until_idle::<Core<Table>>(&rt, rt.alloc(), &POSTS, &ROWS);
    rt.end();
}
