//! Snapshots.
use super::host::{Host, got, holds, is_number, same};
use super::machine::{Machine, read_all};
use super::row::More::{Inserts, PutsOff, Replies, Sets};
use super::row::Row;
use super::row::Row::{Tells, Turns};
use super::seen::is_all;
use super::shown::Shown::{Posted, Stopped, Ticked};
use super::table::Table;
use super::table_machine::PLAIN;
use super::tested::{does, play};
use super::told::Told::{Call, Cast, Stop, Tick};
use super::told::{FIRST, ID, SECOND};
use st_core::Time::After;
use st_core::Timer::Named;
use st_core::{
    Core, Due, Event, Item, Kind, Message, Outbox, Refusal, Request, RequestState, Running,
    Snapshot,
};
use std::alloc::Global;
use std::process::Abort;

/// A machine's snapshot, made again where it found no memory.
fn snapped_again<T: Machine>(
    rt: &Host<impl Abort>,
    machine: &mut T,
    refusal: Refusal,
) -> Snapshot<Table> {
    holds(rt, "memory was refused", refusal == Refusal::NoMemory);
    rt.retry();
    got(
        rt,
        "one allocation alone is refused",
        machine.try_snapshot(),
    )
}

/// A machine's snapshot, which changes nothing that can be read. Where it finds no memory, it is made again.
pub fn snapped<T: Machine>(rt: &Host<impl Abort>, machine: &mut T) -> Snapshot<Table> {
    let before = read_all(rt, machine);
    let snapshot = machine.try_snapshot();
    is_all(rt, &read_all(rt, machine), &before);
    match snapshot {
        Ok(snapshot) => snapshot,
        Err(refusal) => snapped_again(rt, machine, refusal),
    }
}

/// What waits in it.
static PENDING: [Item<u32>; 4] = [
    Item::Received(Event {
        number: 4,
        kind: Kind::Cast,
        content: 12,
    }),
    Item::Received(Event {
        number: 8,
        kind: Kind::Cast,
        content: 21,
    }),
    Item::Posted(Event {
        number: 5,
        kind: Kind::Cast,
        content: 0,
    }),
    Item::Expiry(Named(1)),
];

/// The time-outs that run in it.
static RUNNING: [Running<u32>; 1] = [Running {
    timer: Named(1),
    number: 6,
    due: Due::At(5),
    content: 0,
}];

/// The event that is postponed in it.
static POSTPONED: [u64; 1] = [4];

/// Its requests.
static REQUESTS: [Request<u32>; 2] = [
    Request {
        tag: FIRST,
        held: RequestState::Reply(50),
    },
    Request {
        tag: SECOND,
        held: RequestState::Open,
    },
];

/// Its second request, where the machine was stopped.
static CLOSED: Request<u32> = Request {
    tag: SECOND,
    held: RequestState::Stopped(9),
};

/// Looks at the events and the time-outs of its snapshot.
fn schedule_is_whole(rt: &Host<impl Abort>, whole: &Snapshot<Table>) {
    let schedule = &whole.schedule;
    let waits = schedule.pending.as_slice() == PENDING.as_slice();
    holds(rt, "what waits", waits);
    let is_postponed = schedule.postponed.as_slice() == POSTPONED.as_slice();
    holds(rt, "what is postponed", is_postponed);
    let runs = schedule.running.as_slice() == RUNNING.as_slice();
    holds(rt, "what runs", runs);
    is_number(rt, "the next number", schedule.next_number, 9);
}

/// Looks at the requests of its snapshot.
fn requests_are_whole(rt: &Host<impl Abort>, whole: &Snapshot<Table>) {
    let are_same = whole.requests.as_slice() == REQUESTS.as_slice();
    holds(rt, "the requests", are_same);
}

/// Looks at the messages of a snapshot, and at the number of the next one.
pub fn sent_is_whole(
    rt: &Host<impl Abort>,
    outbox: &Outbox<u32>,
    messages: &[Message<u32>],
    next_number: u64,
) {
    let are_same = outbox.messages.as_slice() == messages;
    holds(rt, "the messages", are_same);
    is_number(
        rt,
        "the next message's number",
        outbox.next_number,
        next_number,
    );
}

/// Looks at the snapshot that follows a stop, where this is one before it.
fn is_closed(rt: &Host<impl Abort>, whole: &Snapshot<Table>, end: &Snapshot<Table>) {
    holds(rt, "the end is another", *whole != *end);
    holds(
        rt,
        "nothing waits",
        end.schedule.pending.as_slice().is_empty(),
    );
    holds(rt, "the reason and the word", end.ended == Some((9, 7)));
    let is_closed = end.requests.as_slice().last() == Some(&CLOSED);
    holds(rt, "the open one is closed", is_closed);
}

/// Looks at a machine's snapshot.
fn is_whole(rt: &Host<impl Abort>, whole: &Snapshot<Table>) {
    holds(rt, "the id", whole.id == ID);
    let parts = (whole.state, whole.data, whole.latest);
    same(rt, "state, data and moment", &parts, &(0, 7, 5));
    schedule_is_whole(rt, whole);
    requests_are_whole(rt, whole);
    sent_is_whole(rt, &whole.outbox, &[], 1);
    holds(rt, "it runs", whole.ended == None);
}

/// Looks at another snapshot of a machine.
fn another_is_equal<T: Machine>(rt: &Host<impl Abort>, machine: &mut T, whole: &Snapshot<Table>) {
    let again = snapped(rt, machine);
    holds(rt, "another snapshot is equal", *whole == again);
    drop(again);
}

/// Stops a machine, and looks at its snapshot then.
fn end_is_another<T: Machine>(rt: &Host<impl Abort>, machine: &mut T, whole: &Snapshot<Table>) {
    does(rt, machine, Stop(9), &Stopped(7));
    let end = snapped(rt, machine);
    is_closed(rt, whole, &end);
    drop(end);
}

/// Looks at a machine's snapshot, at another one, and at one after it is stopped.
fn snapshots_follow<T: Machine>(rt: &Host<impl Abort>, mut machine: T, whole: Snapshot<Table>) {
    is_whole(rt, &whole);
    another_is_equal(rt, &mut machine, &whole);
    end_is_another(rt, &mut machine, &whole);
    drop(machine);
    drop(whole);
}

/// Looks at the snapshots of a machine that has done the commands of rows.
fn is_snapped<T: Machine>(rt: &Host<impl Abort>, alloc: Global, rows: &[Row]) {
    let mut machine = T::begun(rt, alloc, &PLAIN);
    play(rt, &mut machine, rows);
    let whole = snapped(rt, &mut machine);
    snapshots_follow(rt, machine, whole);
}

/// A snapshot of a machine, another of the same, and one after it is stopped. The machine has a reply that is kept and
/// a request that is open, an event that is postponed, one that was inserted, one that was posted, and an expiry that
/// waits.
#[test]
fn a_snapshot_is_the_whole_machine(rt: HostRuntime) {
    static ROWS: [Row; 11] = [
        Tells(Call(5), Posted(1)),
        Tells(Call(0), Posted(2)),
        Tells(Cast(26), Posted(3)),
        Tells(Cast(12), Posted(4)),
        Tells(Cast(0), Posted(5)),
        Turns(0, 1, Kind::Call(FIRST), 0, 0, &[Replies(FIRST)]),
        Turns(0, 2, Kind::Call(SECOND), 0, 0, &[]),
        Turns(0, 3, Kind::Cast, 0, 0, &[Sets(Named(1), After(5))]),
        Turns(0, 4, Kind::Cast, 0, 0, &[PutsOff, Inserts(7), Inserts(8)]),
        Turns(0, 7, Kind::Internal, 0, 0, &[]),
        Tells(Tick(5), Ticked(1)),
    ];
    let rt = Host::new(rt);
    is_snapped::<Core<Table>>(&rt, rt.alloc(), &ROWS);
    rt.end();
}
