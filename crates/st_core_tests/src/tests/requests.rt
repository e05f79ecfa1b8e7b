//! Calls, replies, and what is collected.
use super::begin::Begin;
use super::host::Host;
use super::machine::Machine;
use super::row::More::{Ends, Enters, Replies};
use super::row::Row;
use super::row::Row::{Tells, Turns};
use super::seen::{Kept, Seen, keeps};
use super::shown::Shown::{
    Closed, Collected, Gone, Idle, NotPosted, NotTurned, Posted, Replied, Stopped, Waiting,
};
use super::table::Table;
use super::table_machine::{AT_REST, BEGIN, PLAIN, RESTING, answers_are};
use super::tested::does;
use super::told::Told::{Call, Cast, Collect, Reply, Stop, Turn};
use super::told::{FIRST, ID, SECOND, THIRD};
use st_core::{Core, Kind, MachineId, Refusal, Tag};
use std::alloc::Global;
use std::process::Abort;

/// The last request that a machine can get.
const LAST: Tag = Tag {
    machine: ID,
    request: 9_223_372_036_854_775_807,
};

/// A request that a machine cannot get.
const BEYOND: Tag = Tag {
    machine: ID,
    request: 9_223_372_036_854_775_808,
};

/// A request to another machine in the same place.
const FOREIGN: Tag = Tag {
    machine: MachineId { slot: 0, serial: 2 },
    request: 1,
};

/// Three calls wait, the second is answered from outside. The first stops the machine, and replies to
/// itself and to the second, which has its reply.
#[test]
fn a_stop_answers_some_and_closes_the_others(rt: HostRuntime) {
    static ROWS: [Row; 9] = [
        Tells(Call(37), Posted(1)),
        Tells(Call(0), Posted(2)),
        Tells(Call(0), Posted(3)),
        Tells(Reply(SECOND, 50), Replied(true)),
        Turns(0, 1, Kind::Call(FIRST), 0, 0, &[Ends(9, 7), Replies(FIRST)]),
        Tells(Collect(FIRST), Collected(40)),
        Tells(Collect(SECOND), Collected(50)),
        Tells(Collect(THIRD), Closed(9)),
        Tells(Collect(THIRD), Gone),
    ];
    static END: Seen = Seen {
        ended: Some((9, 7)),
        ..AT_REST
    };
    answers_are(rt, &PLAIN, &ROWS, &END);
}

#[test]
fn a_reply_is_collected_once(rt: HostRuntime) {
    static ROWS: [Row; 9] = [
        Tells(Call(5), Posted(1)),
        Tells(Collect(FIRST), Waiting),
        Turns(4, 1, Kind::Call(FIRST), 0, 0, &[Replies(FIRST)]),
        Tells(Reply(FIRST, 8), Replied(false)),
        Tells(Collect(FIRST), Collected(50)),
        Tells(Collect(FIRST), Gone),
        Tells(Reply(FIRST, 9), Replied(false)),
        Tells(Collect(FIRST), Gone),
        Tells(Turn(5), Idle),
    ];
    static END: Seen = Seen {
        latest: 5,
        ..AT_REST
    };
    answers_are(rt, &PLAIN, &ROWS, &END);
}

/// Two replies to one request in one list, and then a reply from outside.
#[test]
fn the_first_reply_is_taken(rt: HostRuntime) {
    static ROWS: [Row; 4] = [
        Tells(Call(39), Posted(1)),
        Turns(0, 1, Kind::Call(FIRST), 0, 0, &[Replies(FIRST)]),
        Tells(Reply(FIRST, 9), Replied(false)),
        Tells(Collect(FIRST), Collected(50)),
    ];
    answers_are(rt, &PLAIN, &ROWS, &RESTING);
}

/// A cast whose number a tag has, a number that was not given, a request to another machine.
#[test]
fn a_reply_to_an_unknown_tag_is_let_go(rt: HostRuntime) {
    static ROWS: [Row; 11] = [
        Tells(Cast(0), Posted(1)),
        Tells(Call(40), Posted(2)),
        Tells(Reply(FIRST, 5), Replied(false)),
        Tells(Reply(THIRD, 5), Replied(false)),
        Tells(Reply(FOREIGN, 5), Replied(false)),
        Tells(Collect(FIRST), Gone),
        Tells(Collect(FOREIGN), Gone),
        Turns(0, 1, Kind::Cast, 0, 0, &[]),
        Turns(0, 2, Kind::Call(SECOND), 0, 0, &[]),
        Tells(Collect(SECOND), Waiting),
        Tells(Collect(FOREIGN), Gone),
    ];
    answers_are(rt, &PLAIN, &ROWS, &RESTING);
}

/// `handle` replies to the second request, and `enter` after it to the first.
#[test]
fn replies_of_an_enter_call_come_later(rt: HostRuntime) {
    static START: Begin<Table> = Begin {
        module: Table { number: 65 },
        ..BEGIN
    };
    static ROWS: [Row; 5] = [
        Tells(Call(38), Posted(1)),
        Tells(Call(0), Posted(2)),
        Turns(
            0,
            1,
            Kind::Call(FIRST),
            0,
            1,
            &[Enters, Replies(SECOND), Replies(FIRST)],
        ),
        Tells(Collect(FIRST), Collected(62)),
        Tells(Collect(SECOND), Collected(52)),
    ];
    static END: Seen = Seen {
        is_ready: true,
        has_event: true,
        state: 1,
        waiting: 1,
        ..AT_REST
    };
    answers_are(rt, &START, &ROWS, &END);
}

/// `handle` replies to the second request, and the enter call stops with a reply to the first.
#[test]
fn an_enter_call_stops_with_the_replies_of_both(rt: HostRuntime) {
    static START: Begin<Table> = Begin {
        module: Table { number: 71 },
        ..BEGIN
    };
    static ROWS: [Row; 7] = [
        Tells(Call(38), Posted(1)),
        Tells(Call(0), Posted(2)),
        Tells(Call(0), Posted(3)),
        Turns(
            0,
            1,
            Kind::Call(FIRST),
            0,
            1,
            &[Enters, Ends(4, 8), Replies(SECOND), Replies(FIRST)],
        ),
        Tells(Collect(FIRST), Collected(61)),
        Tells(Collect(SECOND), Collected(52)),
        Tells(Collect(THIRD), Closed(4)),
    ];
    static END: Seen = Seen {
        state: 1,
        held: 8,
        ended: Some((4, 8)),
        ..AT_REST
    };
    answers_are(rt, &START, &ROWS, &END);
}

/// A reply that was kept stays, and the open request is closed. From then on no reply is taken.
#[test]
fn a_stop_from_outside_closes_open_requests(rt: HostRuntime) {
    static ROWS: [Row; 11] = [
        Tells(Call(0), Posted(1)),
        Tells(Call(0), Posted(2)),
        Tells(Reply(FIRST, 6), Replied(true)),
        Tells(Stop(5), Stopped(7)),
        Tells(Reply(SECOND, 6), Replied(false)),
        Tells(Call(3), NotPosted(Refusal::Stopped(5), 3)),
        Tells(Turn(0), NotTurned(Refusal::Stopped(5))),
        Tells(Collect(SECOND), Closed(5)),
        Tells(Collect(SECOND), Gone),
        Tells(Collect(FIRST), Collected(6)),
        Tells(Collect(FIRST), Gone),
    ];
    static END: Seen = Seen {
        ended: Some((5, 7)),
        ..AT_REST
    };
    answers_are(rt, &PLAIN, &ROWS, &END);
}

/// Does the commands of rows, and looks after each which reply is kept for the second request.
fn keeps_second<T: Machine>(rt: &Host<impl Abort>, alloc: Global, rows: &[(Row, Option<u32>)]) {
    let mut machine = T::begun(rt, alloc, &PLAIN);
    for (row, second) in rows {
        does(rt, &mut machine, row.told(), &row.wanted());
        let wanted = Kept {
            second: *second,
            ..Kept::none()
        };
        keeps(rt, &machine.kept(), &wanted);
    }
}

/// A reply is shown as often as is asked, until it is collected.
#[test]
fn a_reply_is_shown(rt: HostRuntime) {
    static ROWS: [(Row, Option<u32>); 5] = [
        (Tells(Call(0), Posted(1)), None),
        (Tells(Call(0), Posted(2)), None),
        (Tells(Reply(SECOND, 6), Replied(true)), Some(6)),
        (Tells(Stop(5), Stopped(7)), Some(6)),
        (Tells(Collect(SECOND), Collected(6)), None),
    ];
    let rt = Host::new(rt);
    keeps_second::<Core<Table>>(&rt, rt.alloc(), &ROWS);
    rt.end();
}

/// A call that comes where the last number is given.
#[test]
fn a_call_takes_the_last_number(rt: HostRuntime) {
    static START: Begin<Table> = Begin {
        first: Some(9_223_372_036_854_775_807),
        ..BEGIN
    };
    static ROWS: [Row; 6] = [
        Tells(Call(0), Posted(9_223_372_036_854_775_807)),
        Tells(Call(6), NotPosted(Refusal::Exhausted, 6)),
        Tells(Reply(LAST, 4), Replied(true)),
        Turns(0, 9_223_372_036_854_775_807, Kind::Call(LAST), 0, 0, &[]),
        Tells(Collect(LAST), Collected(4)),
        Tells(Collect(BEYOND), Gone),
    ];
    answers_are(rt, &START, &ROWS, &RESTING);
}
