//! Tests of st_replay: journals of cells are replayed from a machine that began alike, as they are and with an entry
//! changed by hand, with memory and while an allocation is refused, where the replay goes on with the rest.

mod changes;
mod told;

use super::asked::Asked;
use super::begun::{AT_FIRST, ID, REQUEST_1, TOKEN_1, TOKEN_8, begun, machine};
use super::host::{Host, same};
use super::kept::Kept;
use super::plain::Plain;
use super::twin::Twin;
use changes::{Change, apply};
use st_cell::{Cell, Entry, PlainList, Tag, Token};
use st_replay::Replayed;
use std::alloc::Global;
use std::process::Abort;
use told::{Line, journal_of, opens};

/// The token that is issued for the second event.
const TOKEN_4: Token = Token {
    machine: ID,
    wake: 4,
};

/// The token that is issued for the third event.
const TOKEN_6: Token = Token {
    machine: ID,
    wake: 6,
};

/// The token that is issued for the fifth event.
const TOKEN_10: Token = Token {
    machine: ID,
    wake: 10,
};

/// The request of the second call.
const REQUEST_6: Tag = Tag {
    machine: ID,
    request: 6,
};

/// A day of a machine. Events and time-outs get the numbers 1, 2 and so on: the calls have 1 and 6.
static DAY: [Asked; 16] = [
    Asked::Post(1, Entry::Call, 6),
    Asked::Turn(TOKEN_1, 1),
    Asked::Collect(REQUEST_1),
    Asked::Post(1, Entry::Cast, 12),
    Asked::Turn(TOKEN_4, 2),
    Asked::Post(1, Entry::Cast, 3),
    Asked::Turn(TOKEN_6, 3),
    Asked::Tick(8),
    Asked::Turn(TOKEN_8, 8),
    Asked::Post(1, Entry::Cast, 10),
    Asked::Turn(TOKEN_10, 9),
    Asked::TakeOut(TOKEN_10),
    Asked::Post(1, Entry::Call, 0),
    Asked::Turn(TOKEN_10, 10),
    Asked::Reply(REQUEST_6, 60),
    Asked::Stop(3),
];

/// How a replay ends, and the state in which it leaves the machine.
type End = (Replayed, u32);

/// What is replayed of the day, and how that ends.
#[derive(Clone, Copy)]
enum Row {
    /// The whole day, with a change.
    Whole(Change, End),
    /// The day, handed out in two parts. A machine replays one and then the other; and another machine begins with the
    /// second.
    Parts(End, End, End),
}

/// How a replay ended that went on behind so many entries.
fn behind(before: usize, rest: Replayed) -> Replayed {
    match rest {
        Replayed::Differs(agreed) => Replayed::Differs(before.saturating_add(agreed)),
        other => other,
    }
}

/// Replays entries on a machine: how that ends, and the state in which it leaves the machine. Where it finds no memory,
/// it goes on with the rest.
fn replayed<U: Twin>(
    rt: &Host<impl Abort>,
    alloc: Global,
    player: &mut U,
    entries: &[Line],
) -> End {
    match player.replay_all(alloc, entries) {
        (Replayed::NoMemory(agreed), _) => {
            rt.retry();
            let rest = entries.get(agreed..).expect(rt, "there are so many");
            let (ended, state) = player.replay_all(alloc, rest);
            (behind(agreed, ended), state)
        }
        end => end,
    }
}

/// Looks how the replay of entries ends, and in which state it leaves the machine.
fn ends<U: Twin>(
    rt: &Host<impl Abort>,
    alloc: Global,
    row: usize,
    player: &mut U,
    entries: &[Line],
    wanted: End,
) {
    let found = replayed(rt, alloc, player, entries);
    same(rt, "the row and its end", &(row, found), &(row, wanted));
}

/// The entries of the day of a cell, changed.
fn changed<T: Kept>(rt: &Host<impl Abort>, mut cell: T, change: Change) -> Vec<Line> {
    opens(rt, &mut cell);
    let mut entries = journal_of(rt, &mut cell, DAY.as_slice()).into_vec();
    drop(cell);
    apply(&mut entries, change);
    entries
}

/// The replay of the day with a change ends so.
fn whole_ends<T: Kept>(
    rt: &Host<impl Abort>,
    alloc: Global,
    row: usize,
    change: Change,
    wanted: End,
) {
    let (cell, mut player): (T, T::Machine) = begun(rt, alloc, &AT_FIRST);
    let entries = changed(rt, cell, change);
    ends(rt, alloc, row, &mut player, entries.as_slice(), wanted);
    drop(player);
    drop(entries);
}

/// The entries of the day of a cell in two parts.
fn in_parts<T: Kept>(rt: &Host<impl Abort>, mut cell: T) -> (PlainList<Line>, PlainList<Line>) {
    let (morning, evening) = DAY.split_at(7);
    opens(rt, &mut cell);
    let first = journal_of(rt, &mut cell, morning);
    let second = journal_of(rt, &mut cell, evening);
    drop(cell);
    (first, second)
}

/// The replays of the day in two parts end so.
fn parts_end<T: Kept>(rt: &Host<impl Abort>, alloc: Global, row: usize, wanted: (End, End, End)) {
    let (cell, mut player): (T, T::Machine) = begun(rt, alloc, &AT_FIRST);
    let mut other: T::Machine = machine(rt, alloc, &AT_FIRST);
    let (first, second) = in_parts(rt, cell);
    ends(rt, alloc, row, &mut player, first.as_slice(), wanted.0);
    drop(first);
    ends(rt, alloc, row, &mut player, second.as_slice(), wanted.1);
    drop(player);
    ends(rt, alloc, row, &mut other, second.as_slice(), wanted.2);
    drop(other);
    drop(second);
}

/// The replays end as the rows say.
fn rows_end<T: Kept>(rt: &Host<impl Abort>, alloc: Global, rows: &[Row]) {
    for (place, row) in rows.iter().enumerate() {
        match *row {
            Row::Whole(change, end) => whole_ends::<T>(rt, alloc, place, change, end),
            Row::Parts(first, second, other) => parts_end::<T>(
                rt,
                alloc,
                place,
                (first, second, other),
            ),
        }
    }
}

/// The replays of a cell's journals end as the rows say.
fn replays_end(rt: &Host<impl Abort>, alloc: Global, rows: &[Row]) {
    rows_end::<Cell<Plain>>(rt, alloc, rows);
}

/// The day is replayed as it is.
static AS_IT_IS: [Row; 1] = [Row::Whole(Change::None, (Replayed::Same, 1))];

#[test]
fn the_journal_of_a_cell_is_what_its_machine_does(rt: HostRuntime) {
    let rt = Host::new(rt);
    replays_end(&rt, rt.alloc(), AS_IT_IS.as_slice());
    rt.end();
}

/// One entry says something else than the machine does. With another content the turn differs, and not the post.
static SAID: [Row; 5] = [
    Row::Whole(Change::Number(0, 2), (Replayed::Differs(0), 0)),
    Row::Whole(Change::NoMemory(0), (Replayed::Differs(0), 0)),
    Row::Whole(Change::After(4, 2), (Replayed::Differs(4), 1)),
    Row::Whole(Change::Content(3, 0), (Replayed::Differs(4), 0)),
    Row::Whole(Change::Expired(7, 2), (Replayed::Differs(7), 1)),
];

#[test]
fn the_first_entry_that_differs_is_named(rt: HostRuntime) {
    let rt = Host::with_memory(rt);
    replays_end(&rt, rt.alloc(), SAID.as_slice());
    rt.end_with_memory();
}

/// Entries stand elsewhere, or are not there. A collect may change places with the post of another event.
static PLACES: [Row; 4] = [
    Row::Whole(Change::Swapped(3), (Replayed::Differs(3), 0)),
    Row::Whole(Change::Swapped(2), (Replayed::Same, 1)),
    Row::Whole(Change::Dropped(0), (Replayed::Differs(0), 0)),
    Row::Whole(Change::Dropped(15), (Replayed::Same, 1)),
];

#[test]
fn an_entry_is_missed_where_the_machine_does_otherwise_without_it(rt: HostRuntime) {
    let rt = Host::with_memory(rt);
    replays_end(&rt, rt.alloc(), PLACES.as_slice());
    rt.end_with_memory();
}

/// The entry of a turn says something else, behind others.
static BEHIND_OTHERS: [Row; 1] = [Row::Whole(Change::After(8, 0), (Replayed::Differs(8), 1))];

#[test]
fn a_replay_goes_on_behind_a_want_of_memory(rt: HostRuntime) {
    let rt = Host::new(rt);
    replays_end(&rt, rt.alloc(), BEHIND_OTHERS.as_slice());
    rt.end();
}

/// The day's journal is handed out in two parts. A machine replays both; another one does not begin with the second.
static IN_PARTS: [Row; 1] = [Row::Parts(
    (Replayed::Same, 1),
    (Replayed::Same, 1),
    (Replayed::Differs(0), 0),
)];

#[test]
fn a_journal_that_was_handed_out_in_parts_is_replayed_part_after_part(rt: HostRuntime) {
    let rt = Host::new(rt);
    replays_end(&rt, rt.alloc(), IN_PARTS.as_slice());
    rt.end();
}
