//! Messages are sent, taken out and delivered.
use super::asked::Asked;
use super::begun::{TOKEN_1, TOKEN_2};
use super::celled::plays_at_first;
use super::did::{FINISHED, SENT, SENT_TWO};
use super::ended::TOO_LATE;
use super::host::Host;
use super::plain::OTHER;
use super::row::{Row, Sight};
use st_core::{Entry, Kind, Refusal};
use st_lock::Next;

/// There is work still.
const AGAIN: Next = Next::Again(TOKEN_1);

/// A machine sends a message, which is taken out. Its token outlasts the message.
static TAKEN_OUT: [Row; 14] = [
    Row::Opens(1),
    Row::Posts(1, (1, Entry::Cast, 10), 1, Some(TOKEN_1)),
    Row::Refuses(Asked::TakeOut(TOKEN_2), Refusal::NotQueued),
    Row::TakesNone(TOKEN_1),
    Row::Turns(2, TOKEN_1, 3, AGAIN, (1, Kind::Cast), SENT),
    Row::Stays(TOKEN_1, TOO_LATE),
    Row::HasToken(Some(TOKEN_1)),
    Row::Takes(3, TOKEN_1, 1, 3),
    Row::TakesNone(TOKEN_1),
    Row::HasToken(Some(TOKEN_1)),
    Row::Rests(TOKEN_1, TOO_LATE),
    Row::HasToken(None),
    Row::Refuses(Asked::TakeOut(TOKEN_1), Refusal::NotQueued),
    Row::Looks(
        1,
        Sight {
            waiting: 0,
            entries: 3,
            mine: 1,
            numbers: &[1],
            ended: None,
        },
    ),
];

#[test]
fn a_message_is_taken_out(rt: HostRuntime) {
    let rt = Host::new(rt);
    plays_at_first(&rt, rt.alloc(), &[TAKEN_OUT.as_slice()]);
    rt.end();
}

/// A machine has two messages, and ends. It can be removed once they are taken out.
static AFTER_THE_END: [Row; 14] = [
    Row::Opens(1),
    Row::Posts(1, (1, Entry::Cast, 11), 1, Some(TOKEN_1)),
    Row::Turns(2, TOKEN_1, 0, AGAIN, (1, Kind::Cast), SENT_TWO),
    Row::Stops(3, 3, 7),
    Row::Removable(false),
    Row::Stays(TOKEN_1, 9),
    Row::Takes(4, TOKEN_1, 1, 3),
    Row::Removable(false),
    Row::Takes(5, TOKEN_1, 2, 4),
    Row::Removable(true),
    Row::TakesNone(TOKEN_1),
    Row::Rests(TOKEN_1, 9),
    Row::HasToken(None),
    Row::Refuses(Asked::TakeOut(TOKEN_1), Refusal::NotQueued),
];

#[test]
fn messages_outlast_the_end(rt: HostRuntime) {
    let rt = Host::new(rt);
    plays_at_first(&rt, rt.alloc(), &[AFTER_THE_END.as_slice()]);
    rt.end();
}

/// Messages are delivered: they come as infos, through no port.
static DELIVERED: [Row; 8] = [
    Row::Opens(1),
    Row::Delivers(1, (OTHER, 5, 0), 1, Some(TOKEN_1)),
    Row::Delivers(2, (OTHER, 6, 0), 2, None),
    Row::Looks(
        1,
        Sight {
            waiting: 2,
            entries: 2,
            mine: 0,
            numbers: &[],
            ended: None,
        },
    ),
    Row::Turns(3, TOKEN_1, 0, AGAIN, (1, Kind::Info), FINISHED),
    Row::Turns(4, TOKEN_1, 0, Next::Rest, (2, Kind::Info), FINISHED),
    Row::Stops(5, 3, 7),
    Row::Refuses(Asked::Deliver(OTHER, 7, 0), Refusal::Stopped(3)),
];

#[test]
fn a_message_is_delivered(rt: HostRuntime) {
    let rt = Host::new(rt);
    plays_at_first(&rt, rt.alloc(), &[DELIVERED.as_slice()]);
    rt.end();
}

/// A message is sent.
static BEFORE_A_CUT: [Row; 3] = [
    Row::Opens(1),
    Row::Posts(1, (1, Entry::Cast, 10), 1, Some(TOKEN_1)),
    Row::Turns(2, TOKEN_1, 3, AGAIN, (1, Kind::Cast), SENT),
];

/// Behind a cut it is taken out.
static AFTER_A_CUT: [Row; 4] = [
    Row::HasToken(Some(TOKEN_1)),
    Row::Removable(false),
    Row::Takes(3, TOKEN_1, 1, 3),
    Row::Rests(TOKEN_1, 0),
];

#[test]
fn a_cut_loses_no_message(rt: HostRuntime) {
    let rt = Host::new(rt);
    plays_at_first(
        &rt,
        rt.alloc(),
        &[BEFORE_A_CUT.as_slice(), AFTER_A_CUT.as_slice()],
    );
    rt.end();
}
