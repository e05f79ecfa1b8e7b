//! Machines end, and requests are answered and collected.
use super::asked::Asked;
use super::begun::{REQUEST_1, REQUEST_2, REQUEST_3, TOKEN_0, TOKEN_1};
use super::celled::plays_at_first;
use super::did::{Did, ENDED, FINISHED};
use super::host::Host;
use super::row::{Row, Sight};
use st_core::{Entry, Kind, MachineId, Refusal};
use st_events::Token;
use st_lock::Next;

/// The token of another machine.
const FOREIGN: Token = Token {
    machine: MachineId { slot: 0, serial: 2 },
    wake: 1,
};

/// The first moment that is refused.
pub const TOO_LATE: u64 = 9_223_372_036_854_775_808;

/// The first request is answered.
const REPLIED: Did = Did {
    replied: &[REQUEST_1],
    ..FINISHED
};

/// Requests are answered and collected.
static REQUESTS: [Row; 14] = [
    Row::Opens(1),
    Row::Posts(1, (1, Entry::Call, 6), 1, Some(TOKEN_1)),
    Row::Posts(2, (1, Entry::Call, 0), 2, None),
    Row::Posts(3, (1, Entry::Call, 0), 3, None),
    Row::Turns(
        4,
        TOKEN_1,
        0,
        Next::Again(TOKEN_1),
        (1, Kind::Call(REQUEST_1)),
        REPLIED,
    ),
    Row::Replies(5, REQUEST_2, 60, true),
    Row::Replies(6, REQUEST_2, 61, false),
    Row::Collects(7, REQUEST_1, 50),
    Row::Misses(REQUEST_1),
    Row::Waits(REQUEST_3),
    Row::Refuses(Asked::Tick(TOO_LATE), Refusal::Moment),
    Row::Refuses(Asked::Turn(TOKEN_1, TOO_LATE), Refusal::Moment),
    Row::Refuses(Asked::Turn(TOKEN_0, 0), Refusal::NotQueued),
    Row::Refuses(Asked::Turn(FOREIGN, 0), Refusal::NotQueued),
];

/// Then the machine is stopped.
static STOPPED: [Row; 16] = [
    Row::Removable(false),
    Row::Stops(8, 3, 7),
    Row::Removable(true),
    Row::Refuses(Asked::Post(1, Entry::Cast, 8), Refusal::Stopped(3)),
    Row::Refuses(Asked::Tick(9), Refusal::Stopped(3)),
    Row::Refuses(Asked::Tick(TOO_LATE), Refusal::Stopped(3)),
    Row::Refuses(Asked::Stop(4), Refusal::Stopped(3)),
    Row::HasToken(Some(TOKEN_1)),
    Row::Rests(TOKEN_1, 9),
    Row::HasToken(None),
    Row::Refuses(Asked::Turn(TOKEN_1, 9), Refusal::NotQueued),
    Row::CollectsReason(9, REQUEST_3, 3),
    Row::Misses(REQUEST_3),
    Row::Collects(10, REQUEST_2, 60),
    Row::Replies(11, REQUEST_3, 62, false),
    Row::Copies("front", 0),
];

#[test]
fn requests_and_the_end(rt: HostRuntime) {
    let rt = Host::new(rt);
    plays_at_first(&rt, rt.alloc(), &[REQUESTS.as_slice(), STOPPED.as_slice()]);
    rt.end();
}

/// A machine ends by its turn.
static BY_A_TURN: [Row; 11] = [
    Row::Opens(1),
    Row::Posts(1, (1, Entry::Cast, 1), 1, Some(TOKEN_1)),
    Row::Posts(2, (1, Entry::Call, 0), 2, None),
    Row::Turns(3, TOKEN_1, 4, Next::Rest, (1, Kind::Cast), ENDED),
    Row::HasToken(None),
    Row::Removable(true),
    Row::Refuses(Asked::Post(1, Entry::Cast, 8), Refusal::Stopped(9)),
    Row::Refuses(Asked::Tick(5), Refusal::Stopped(9)),
    Row::Refuses(Asked::Stop(4), Refusal::Stopped(9)),
    Row::CollectsReason(4, REQUEST_2, 9),
    Row::Looks(
        1,
        Sight {
            waiting: 0,
            entries: 4,
            mine: 2,
            numbers: &[1, 2],
            ended: Some((9, 7)),
        },
    ),
];

#[test]
fn a_machine_ends_by_its_turn(rt: HostRuntime) {
    let rt = Host::new(rt);
    plays_at_first(&rt, rt.alloc(), &[BY_A_TURN.as_slice()]);
    rt.end();
}
