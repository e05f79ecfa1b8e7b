//! Each call where one allocation is refused: nothing that can be read changes, and it is made again.
use super::asked::Asked;
use super::begun::{REQUEST_1, TOKEN_1, TOKEN_5};
use super::celled::plays_at_first;
use super::did::{FINISHED, SENT, SET};
use super::host::Host;
use super::plain::OTHER;
use super::row::{Row, Sight};
use st_core::{Entry, Kind, Refusal, Timer};
use st_lock::Next;

/// Each call, one after another.
pub static EACH_CALL: [Row; 16] = [
    Row::Opens(1),
    Row::Posts(1, (1, Entry::Call, 0), 1, Some(TOKEN_1)),
    Row::Posts(2, (1, Entry::Cast, 3), 2, None),
    Row::Turns(
        3,
        TOKEN_1,
        0,
        Next::Again(TOKEN_1),
        (1, Kind::Call(REQUEST_1)),
        FINISHED,
    ),
    Row::Turns(4, TOKEN_1, 0, Next::Rest, (2, Kind::Cast), SET),
    Row::Ticks(5, 5, 1, Some(TOKEN_5)),
    Row::Delivers(6, (OTHER, 1, 10), 4, None),
    Row::Turns(
        7,
        TOKEN_5,
        5,
        Next::Again(TOKEN_5),
        (3, Kind::Timeout(Timer::State)),
        FINISHED,
    ),
    Row::Turns(8, TOKEN_5, 5, Next::Again(TOKEN_5), (4, Kind::Info), SENT),
    Row::Takes(9, TOKEN_5, 1, 3),
    Row::Replies(10, REQUEST_1, 60, true),
    Row::Collects(11, REQUEST_1, 60),
    Row::Looks(
        1,
        Sight {
            waiting: 0,
            entries: 11,
            mine: 2,
            numbers: &[1, 2],
            ended: None,
        },
    ),
    Row::Copies("front", 0),
    Row::Stops(12, 3, 7),
    Row::Rests(TOKEN_5, 5),
];

#[test]
fn each_call_is_made_again(rt: HostRuntime) {
    let rt = Host::new(rt);
    plays_at_first(&rt, rt.alloc(), &[EACH_CALL.as_slice()]);
    rt.end();
}

/// A stop of a cell that has just begun.
static AT_ONCE: [Row; 2] = [
    Row::Stops(1, 3, 7),
    Row::Refuses(Asked::Stop(4), Refusal::Stopped(3)),
];

/// A port is opened.
static ONE_PORT: [Row; 1] = [Row::Opens(1)];

/// A stop.
static STOP: [Row; 1] = [Row::Stops(1, 3, 7)];

/// A stop behind a post.
static POSTED: [Row; 4] = [
    Row::Opens(1),
    Row::Posts(1, (1, Entry::Cast, 0), 1, Some(TOKEN_1)),
    Row::Stops(2, 3, 7),
    Row::Rests(TOKEN_1, 0),
];

/// A stop finds its place in a cell that has just begun, after a cut, and behind a post.
#[test]
fn a_stop_takes_no_memory(rt: HostRuntime) {
    let rt = Host::new(rt);
    plays_at_first(&rt, rt.alloc(), &[AT_ONCE.as_slice()]);
    plays_at_first(&rt, rt.alloc(), &[ONE_PORT.as_slice(), STOP.as_slice()]);
    plays_at_first(&rt, rt.alloc(), &[POSTED.as_slice()]);
    rt.end();
}
