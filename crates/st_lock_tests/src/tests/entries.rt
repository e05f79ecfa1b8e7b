//! Each entry of a journal, as it is written.
use super::begun::{REQUEST_1, TOKEN_1, TOKEN_8};
use super::celled::plays_at_first;
use super::did::{Did, FINISHED, PUT_OFF};
use super::host::Host;
use super::row::{Row, Sight};
use st_core::{Decision, Entry, Kind, Time, Timer};
use st_lock::Next;

/// There is work still.
const AGAIN: Next = Next::Again(TOKEN_1);

/// Events are posted through two ports.
static TWO_PORTS: [Row; 9] = [
    Row::Opens(1),
    Row::Opens(2),
    Row::HasPorts(2),
    Row::Posts(1, (1, Entry::Call, 0), 1, Some(TOKEN_1)),
    Row::Posts(2, (2, Entry::Cast, 0), 2, None),
    Row::Posts(3, (1, Entry::Info, 0), 3, None),
    Row::Looks(
        1,
        Sight {
            waiting: 3,
            entries: 3,
            mine: 2,
            numbers: &[1, 3],
            ended: None,
        },
    ),
    Row::Looks(
        2,
        Sight {
            waiting: 3,
            entries: 3,
            mine: 1,
            numbers: &[2],
            ended: None,
        },
    ),
    Row::Copies("", 0),
];

/// What is done and seen through them behind a cut.
static TWO_PORTS_LATER: [Row; 4] = [
    Row::Turns(4, TOKEN_1, 2, AGAIN, (1, Kind::Call(REQUEST_1)), FINISHED),
    Row::Posts(5, (2, Entry::Cast, 0), 4, None),
    Row::Looks(
        1,
        Sight {
            waiting: 3,
            entries: 5,
            mine: 2,
            numbers: &[],
            ended: None,
        },
    ),
    Row::Looks(
        2,
        Sight {
            waiting: 3,
            entries: 5,
            mine: 2,
            numbers: &[4],
            ended: None,
        },
    ),
];

#[test]
fn two_ports_count_apart(rt: HostRuntime) {
    let rt = Host::new(rt);
    plays_at_first(
        &rt,
        rt.alloc(),
        &[TWO_PORTS.as_slice(), TWO_PORTS_LATER.as_slice()],
    );
    rt.end();
}

/// An event is inserted, and the state time-out is set.
const ASKED: Did = Did {
    inserted: &[3],
    set: &[(Timer::State, Decision::Set(Time::After(5)))],
    ..FINISHED
};

/// A machine is told a moment and served.
static SERVED: [Row; 8] = [
    Row::Opens(1),
    Row::Posts(1, (1, Entry::Cast, 5), 1, Some(TOKEN_1)),
    Row::Posts(2, (1, Entry::Cast, 4), 2, None),
    Row::Ticks(3, 0, 0, None),
    Row::Turns(4, TOKEN_1, 2, AGAIN, (1, Kind::Cast), ASKED),
    Row::Turns(5, TOKEN_1, 2, AGAIN, (3, Kind::Internal), FINISHED),
    Row::Turns(6, TOKEN_1, 3, Next::Rest, (2, Kind::Cast), PUT_OFF),
    Row::Copies("front", 0),
];

/// Behind a cut its time-out expires.
static EXPIRED: [Row; 5] = [
    Row::Copies("front", 3),
    Row::Ticks(7, 6, 0, None),
    Row::Ticks(8, 7, 1, Some(TOKEN_8)),
    Row::Turns(
        9,
        TOKEN_8,
        7,
        Next::Rest,
        (4, Kind::Timeout(Timer::State)),
        FINISHED,
    ),
    Row::Looks(
        1,
        Sight {
            waiting: 1,
            entries: 9,
            mine: 2,
            numbers: &[],
            ended: None,
        },
    ),
];

#[test]
fn ticks_and_turns(rt: HostRuntime) {
    let rt = Host::new(rt);
    plays_at_first(&rt, rt.alloc(), &[SERVED.as_slice(), EXPIRED.as_slice()]);
    rt.end();
}
