//! A machine is posted events and served, and its journal is cut.
use super::asked::Asked;
use super::begun::{TOKEN_1, TOKEN_2, TOKEN_5};
use super::celled::plays_at_first;
use super::did::FINISHED;
use super::host::Host;
use super::row::{Post, Row, Sight};
use st_core::{Entry, Kind, Refusal};
use st_lock::Next;

/// A cast through the first port.
const CAST: Post = (1, Entry::Cast, 0);

/// There is work still.
const AGAIN: Next = Next::Again(TOKEN_1);

/// A machine is posted events, served and stopped.
pub static UNTIL_A_STOP: [Row; 14] = [
    Row::Opens(1),
    Row::Posts(1, CAST, 1, Some(TOKEN_1)),
    Row::Posts(2, CAST, 2, None),
    Row::Turns(3, TOKEN_1, 2, AGAIN, (1, Kind::Cast), FINISHED),
    Row::Refuses(Asked::Turn(TOKEN_2, 0), Refusal::NotQueued),
    Row::Turns(4, TOKEN_1, 6, Next::Rest, (2, Kind::Cast), FINISHED),
    Row::Looks(
        1,
        Sight {
            waiting: 0,
            entries: 4,
            mine: 2,
            numbers: &[1, 2],
            ended: None,
        },
    ),
    Row::Removable(false),
    Row::Posts(5, CAST, 3, Some(TOKEN_5)),
    Row::Removable(false),
    Row::Stops(6, 3, 7),
    Row::Removable(true),
    Row::Rests(TOKEN_5, 9),
    Row::Looks(
        1,
        Sight {
            waiting: 0,
            entries: 6,
            mine: 3,
            numbers: &[1, 2, 3],
            ended: Some((3, 7)),
        },
    ),
];

/// What is done before the journal is cut.
pub static BEFORE_A_CUT: [Row; 6] = [
    Row::Opens(1),
    Row::Posts(1, CAST, 1, Some(TOKEN_1)),
    Row::Posts(2, CAST, 2, None),
    Row::Turns(3, TOKEN_1, 2, AGAIN, (1, Kind::Cast), FINISHED),
    Row::Refuses(Asked::Turn(TOKEN_2, 0), Refusal::NotQueued),
    Row::Turns(4, TOKEN_1, 6, Next::Rest, (2, Kind::Cast), FINISHED),
];

/// What is done and seen behind it.
pub static AFTER_A_CUT: [Row; 3] = [
    Row::Looks(
        1,
        Sight {
            waiting: 0,
            entries: 4,
            mine: 2,
            numbers: &[],
            ended: None,
        },
    ),
    Row::Posts(5, CAST, 3, Some(TOKEN_5)),
    Row::Looks(
        1,
        Sight {
            waiting: 1,
            entries: 5,
            mine: 3,
            numbers: &[3],
            ended: None,
        },
    ),
];

/// What is seen of a cell behind it.
static ONE_PORT: [Row; 1] = [Row::HasPorts(1)];

#[test]
fn a_cell_by_rows(rt: HostRuntime) {
    let rt = Host::new(rt);
    plays_at_first(&rt, rt.alloc(), &[UNTIL_A_STOP.as_slice()]);
    rt.end();
}

#[test]
fn a_journal_is_cut(rt: HostRuntime) {
    let rt = Host::new(rt);
    plays_at_first(
        &rt,
        rt.alloc(),
        &[
            BEFORE_A_CUT.as_slice(),
            AFTER_A_CUT.as_slice(),
            ONE_PORT.as_slice(),
        ],
    );
    rt.end();
}
