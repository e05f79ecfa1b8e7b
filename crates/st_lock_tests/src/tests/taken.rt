//! Journals that are handed out and cut, and what is read of a machine that threads share.
use super::asked::Asked;
use super::begun::TOKEN_1;
use super::celled::plays_at_first;
use super::did::SET;
use super::host::Host;
use super::reading::Reading;
use super::row::Row;
use super::shared::plays_shared;
use super::way::NEW;
use st_core::{Entry, Kind, Refusal};
use st_lock::Next;

/// The machine is told two moments, and the journal is handed out.
static TWO_MOMENTS: [Row; 3] = [
    Row::Ticks(1, 3, 0, None),
    Row::Ticks(2, 5, 0, None),
    Row::HandsOut("front", 0, &[1, 2]),
];

/// The count stays, and the base is the present. The machine is told a moment more.
static ONE_MOMENT: [Row; 3] = [
    Row::Counts(2, 5),
    Row::Ticks(3, 8, 0, None),
    Row::HandsOut("front", 5, &[3]),
];

/// Nothing came since.
static NO_MOMENT: [Row; 1] = [Row::HandsOut("front", 8, &[])];

#[test]
fn a_cell_hands_its_journal_out(rt: HostRuntime) {
    let rt = Host::new(rt);
    plays_at_first(
        &rt,
        rt.alloc(),
        &[
            TWO_MOMENTS.as_slice(),
            ONE_MOMENT.as_slice(),
            NO_MOMENT.as_slice(),
        ],
    );
    rt.end();
}

/// What is read of a machine that has just started.
const AT_REST: Reading = Reading {
    state: 0,
    waiting: 0,
    due: None,
    ended: None,
    is_ready: false,
};

/// The same, where an event waits.
const WAITING: Reading = Reading {
    waiting: 1,
    is_ready: true,
    ..AT_REST
};

/// The same, where a time-out is due.
const DUE: Reading = Reading {
    due: Some(8),
    ..AT_REST
};

/// The same, where the machine was stopped.
const ENDED: Reading = Reading {
    ended: Some((9, 7)),
    ..AT_REST
};

/// A machine is read at first, and an event comes.
static POSTED: [Row; 3] = [
    Row::Reads(AT_REST),
    Row::Opens(1),
    Row::Posts(1, (1, Entry::Cast, 3), 1, Some(TOKEN_1)),
];

/// It waits.
static WAITS: [Row; 1] = [Row::Reads(WAITING)];

/// An event comes and is handled. Behind these rows the journal is cut.
static TURNED: [Row; 3] = [
    Row::Opens(1),
    Row::Posts(1, (1, Entry::Cast, 3), 1, Some(TOKEN_1)),
    Row::Turns(2, TOKEN_1, 3, Next::Rest, (1, Kind::Cast), SET),
];

/// A machine is read once it has handled an event, and once it is stopped. It hands its journal out.
static STOPPED: [Row; 4] = [
    Row::Reads(DUE),
    Row::Stops(3, 9, 7),
    Row::Reads(ENDED),
    Row::HandsOut("front", 3, &[3]),
];

/// Nothing came in since.
static NOTHING_SINCE: [Row; 1] = [Row::HandsOut("front", 3, &[])];

/// It ends once.
static ENDED_ONCE: [Row; 1] = [Row::Refuses(Asked::Stop(1), Refusal::Stopped(9))];

#[test]
fn a_machine_is_read_and_hands_its_journal_out(rt: HostRuntime) {
    let threads = rt;
    let rt = Host::new(rt);
    plays_shared(
        &rt,
        threads,
        rt.alloc(),
        NEW,
        &[POSTED.as_slice(), WAITS.as_slice()],
    );
    plays_shared(
        &rt,
        threads,
        rt.alloc(),
        NEW,
        &[
            TURNED.as_slice(),
            STOPPED.as_slice(),
            NOTHING_SINCE.as_slice(),
            ENDED_ONCE.as_slice(),
        ],
    );
    rt.end();
}
