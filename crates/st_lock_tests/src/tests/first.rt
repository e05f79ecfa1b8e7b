//! Machines that have an event at first, and machines that come to the last numbers.
use super::asked::Asked;
use super::begun::{Begin, ID, TOKEN_0, TOKEN_1, TOKEN_3};
use super::celled::plays_from;
use super::did::{Did, FINISHED};
use super::host::Host;
use super::plain::OTHER;
use super::row::{Row, Sight};
use st_core::{Entry, Kind, Refusal, Tag};
use st_lock::Next;

/// The last number that an event gets.
const LAST: u64 = 9_223_372_036_854_775_807;

/// The last number but one.
const LAST_BUT_ONE: u64 = 9_223_372_036_854_775_806;

/// The request with the last number.
const LAST_REQUEST: Tag = Tag {
    machine: ID,
    request: LAST,
};

/// An event with the number 2 is inserted.
const INSERTED: Did = Did {
    inserted: &[2],
    ..FINISHED
};

/// The machine is served before a port is opened.
static EVENT_FIRST: [Row; 6] = [
    Row::HasToken(Some(TOKEN_0)),
    Row::Turns(
        1,
        TOKEN_0,
        3,
        Next::Again(TOKEN_0),
        (1, Kind::Cast),
        INSERTED,
    ),
    Row::Turns(2, TOKEN_0, 3, Next::Rest, (2, Kind::Internal), FINISHED),
    Row::Opens(1),
    Row::Posts(3, (1, Entry::Cast, 0), 3, Some(TOKEN_3)),
    Row::Copies("front", 0),
];

/// There is an event already.
static WITH_EVENT: Begin = Begin {
    id: ID,
    first: 1,
    contents: &[2],
    wake: Some(TOKEN_0),
};

#[test]
fn an_event_comes_first(rt: HostRuntime) {
    let rt = Host::new(rt);
    plays_from(&rt, rt.alloc(), &WITH_EVENT, &[EVENT_FIRST.as_slice()]);
    rt.end();
}

/// The last number is given, and no other.
static LAST_GIVEN: [Row; 6] = [
    Row::Opens(1),
    Row::Posts(1, (1, Entry::Call, 0), LAST, Some(TOKEN_1)),
    Row::Refuses(Asked::Post(1, Entry::Cast, 8), Refusal::Exhausted),
    Row::Refuses(Asked::Deliver(OTHER, 1, 8), Refusal::Exhausted),
    Row::Turns(
        2,
        TOKEN_1,
        0,
        Next::Rest,
        (LAST, Kind::Call(LAST_REQUEST)),
        FINISHED,
    ),
    Row::Refuses(Asked::Post(1, Entry::Call, 8), Refusal::Exhausted),
];

/// The first event gets the last number.
static AT_LAST: Begin = Begin {
    id: ID,
    first: LAST,
    contents: &[],
    wake: None,
};

#[test]
fn the_last_number_is_given_once(rt: HostRuntime) {
    let rt = Host::new(rt);
    plays_from(&rt, rt.alloc(), &AT_LAST, &[LAST_GIVEN.as_slice()]);
    rt.end();
}

/// A turn wants more numbers than there are.
static NUMBERS_WANTED: [Row; 8] = [
    Row::Opens(1),
    Row::Posts(1, (1, Entry::Cast, 7), LAST_BUT_ONE, Some(TOKEN_1)),
    Row::Refuses(Asked::Turn(TOKEN_1, 0), Refusal::Exhausted),
    Row::HasToken(Some(TOKEN_1)),
    Row::Looks(
        1,
        Sight {
            waiting: 1,
            entries: 1,
            mine: 1,
            numbers: &[LAST_BUT_ONE],
            ended: None,
        },
    ),
    Row::Stops(2, 5, 7),
    Row::Rests(TOKEN_1, 0),
    Row::HasToken(None),
];

/// The first event gets the last number but one.
static AT_LAST_BUT_ONE: Begin = Begin {
    id: ID,
    first: LAST_BUT_ONE,
    contents: &[],
    wake: None,
};

#[test]
fn a_turn_without_numbers_keeps_its_token(rt: HostRuntime) {
    let rt = Host::new(rt);
    plays_from(
        &rt,
        rt.alloc(),
        &AT_LAST_BUT_ONE,
        &[NUMBERS_WANTED.as_slice()],
    );
    rt.end();
}
