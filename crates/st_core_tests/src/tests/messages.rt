//! Messages that a machine sends, and that are taken out.
use super::begin::Begin;
use super::enters::stops_at_its_start;
use super::host::{Host, holds, same};
use super::machine::Machine;
use super::row::More::{Ends, Enters, Inserts, Sends, Sets};
use super::row::Row;
use super::row::Row::{Takes, Tells, Turns};
use super::seen::{Running, Seen, sees};
use super::shown::Shown::{Idle, NotTurned, Posted, Stopped, TakenOut};
use super::shown::Taken;
use super::snapshots::{sent_is_whole, snapped};
use super::table::Table;
use super::table_machine::{AT_REST, BEGIN, PLAIN, RESTING, answers_are, timers_are};
use super::tested::{does, play};
use super::told::ID;
use super::told::Told::{Cast, Stop, TakeOut, Turn};
use super::until_idle::{made, turned};
use st_core::Time::After;
use st_core::Timer::Named;
use st_core::{Core, Due, Kind, MachineId, Message, Refusal, Snapshot, TurnsEnd};
use std::alloc::Global;
use std::process::Abort;

/// Another machine.
const OTHER: MachineId = MachineId { slot: 1, serial: 2 };

/// A third machine.
const THIRD: MachineId = MachineId { slot: 2, serial: 3 };

/// Another machine, in the same place as the one that sends.
const FOREIGN: MachineId = MachineId { slot: 0, serial: 2 };

/// A machine whose `init` sends one message.
static ONE_SENT: Begin<Table> = Begin {
    arg: 12,
    sent: &[1],
    ..BEGIN
};

/// There is no message to be taken out.
const TAKES_NONE: Row = Tells(TakeOut, TakenOut(None));

/// The first event, a cast, has two messages sent.
const SENDS_TWO: Row = Turns(0, 1, Kind::Cast, 0, 0, &[Sends(1), Sends(2)]);

/// The first of the two messages. The machine is its sender.
const FIRST_SENT: Taken = Taken {
    sender: ID,
    number: 1,
    target: OTHER,
    content: 5,
};

/// The second of the two messages.
const SECOND_SENT: Taken = Taken {
    number: 2,
    target: THIRD,
    content: 6,
    ..FIRST_SENT
};

#[test]
fn messages_come_in_the_order_in_which_they_were_sent(rt: HostRuntime) {
    static ROWS: [Row; 6] = [
        Tells(Cast(52), Posted(1)),
        SENDS_TWO,
        Takes(1, OTHER, 5),
        Takes(2, THIRD, 6),
        TAKES_NONE,
        Tells(Turn(0), Idle),
    ];
    answers_are(rt, &PLAIN, &ROWS, &RESTING);
}

/// Does the commands of rows, and looks after each at the first message that is left.
fn is_first_after<T: Machine>(rt: &Host<impl Abort>, alloc: Global, rows: &[(Row, Option<Taken>)]) {
    let mut machine = T::begun(rt, alloc, &PLAIN);
    for (row, wanted) in rows {
        does(rt, &mut machine, row.told(), &row.wanted());
        same(rt, "the first message", &machine.first_message(), wanted);
    }
    drop(machine);
}

#[test]
fn the_first_message_is_shown_until_it_is_taken_out(rt: HostRuntime) {
    static ROWS: [(Row, Option<Taken>); 4] = [
        (Tells(Cast(52), Posted(1)), None),
        (SENDS_TWO, Some(FIRST_SENT)),
        (Takes(1, OTHER, 5), Some(SECOND_SENT)),
        (Takes(2, THIRD, 6), None),
    ];
    let rt = Host::new(rt);
    is_first_after::<Core<Table>>(&rt, rt.alloc(), &ROWS);
    rt.end();
}

/// The numbers go on, also where all that was sent has been taken out.
#[test]
fn messages_of_a_later_turn_come_behind(rt: HostRuntime) {
    static ROWS: [Row; 13] = [
        Tells(Cast(52), Posted(1)),
        Tells(Cast(52), Posted(2)),
        Tells(Cast(55), Posted(3)),
        SENDS_TWO,
        Takes(1, OTHER, 5),
        Turns(0, 2, Kind::Cast, 0, 0, &[Sends(3), Sends(4)]),
        Takes(2, THIRD, 6),
        Takes(3, OTHER, 5),
        Takes(4, THIRD, 6),
        TAKES_NONE,
        Turns(0, 3, Kind::Cast, 0, 0, &[Sends(5)]),
        Takes(5, OTHER, 8),
        TAKES_NONE,
    ];
    answers_are(rt, &PLAIN, &ROWS, &RESTING);
}

#[test]
fn messages_are_taken_out_after_the_end(rt: HostRuntime) {
    static ROWS: [Row; 7] = [
        Tells(Cast(52), Posted(1)),
        SENDS_TWO,
        Takes(1, OTHER, 5),
        Tells(Stop(4), Stopped(7)),
        Tells(Turn(0), NotTurned(Refusal::Stopped(4))),
        Takes(2, THIRD, 6),
        TAKES_NONE,
    ];
    static END: Seen = Seen {
        ended: Some((4, 7)),
        ..AT_REST
    };
    answers_are(rt, &PLAIN, &ROWS, &END);
}

/// An event that waits is none, handled or not.
#[test]
fn where_nothing_was_sent_nothing_is_taken_out(rt: HostRuntime) {
    static ROWS: [Row; 7] = [
        TAKES_NONE,
        Tells(Cast(0), Posted(1)),
        TAKES_NONE,
        Turns(0, 1, Kind::Cast, 0, 0, &[]),
        TAKES_NONE,
        Tells(Stop(4), Stopped(7)),
        TAKES_NONE,
    ];
    static END: Seen = Seen {
        ended: Some((4, 7)),
        ..AT_REST
    };
    answers_are(rt, &PLAIN, &ROWS, &END);
}

/// What was sent before it stays, and can be taken out.
#[test]
fn a_turn_that_stops_sends_nothing(rt: HostRuntime) {
    static ROWS: [Row; 7] = [
        Tells(Cast(52), Posted(1)),
        Tells(Cast(15), Posted(2)),
        SENDS_TWO,
        Turns(0, 2, Kind::Cast, 0, 0, &[Ends(9, 7)]),
        Takes(1, OTHER, 5),
        Takes(2, THIRD, 6),
        TAKES_NONE,
    ];
    static END: Seen = Seen {
        ended: Some((9, 7)),
        ..AT_REST
    };
    answers_are(rt, &PLAIN, &ROWS, &END);
}

/// `handle` asks for a message, and the enter call stops.
#[test]
fn a_turn_whose_enter_call_stops_sends_nothing(rt: HostRuntime) {
    static START: Begin<Table> = Begin {
        module: Table { number: 72 },
        ..BEGIN
    };
    static ROWS: [Row; 7] = [
        Tells(Cast(52), Posted(1)),
        Tells(Cast(53), Posted(2)),
        SENDS_TWO,
        Takes(1, OTHER, 5),
        Turns(0, 2, Kind::Cast, 0, 1, &[Enters, Ends(4, 7)]),
        Takes(2, THIRD, 6),
        TAKES_NONE,
    ];
    static END: Seen = Seen {
        state: 1,
        ended: Some((4, 7)),
        ..AT_REST
    };
    answers_are(rt, &START, &ROWS, &END);
}

/// What its `init` asked to send is not sent.
#[test]
fn a_start_whose_enter_call_stops_sends_nothing(rt: HostRuntime) {
    static START: Begin<Table> = Begin {
        module: Table { number: 70 },
        arg: 12,
        ..BEGIN
    };
    let rt = Host::new(rt);
    stops_at_its_start(&rt, rt.alloc(), &START);
    rt.end();
}

/// No number is left for the event that it inserts.
#[test]
fn a_turn_that_is_refused_sends_nothing(rt: HostRuntime) {
    static START: Begin<Table> = Begin {
        first: Some(9_223_372_036_854_775_807),
        ..BEGIN
    };
    static ROWS: [Row; 3] = [
        Tells(Cast(53), Posted(9_223_372_036_854_775_807)),
        Tells(Turn(4), NotTurned(Refusal::Exhausted)),
        TAKES_NONE,
    ];
    static END: Seen = Seen {
        is_ready: true,
        has_event: true,
        waiting: 1,
        ..AT_REST
    };
    answers_are(rt, &START, &ROWS, &END);
}

/// The numbers of later messages follow.
#[test]
fn a_start_sends(rt: HostRuntime) {
    static ROWS: [Row; 6] = [
        Tells(Cast(52), Posted(1)),
        Turns(0, 1, Kind::Cast, 0, 0, &[Sends(2), Sends(3)]),
        Takes(1, OTHER, 5),
        Takes(2, OTHER, 5),
        Takes(3, THIRD, 6),
        TAKES_NONE,
    ];
    answers_are(rt, &ONE_SENT, &ROWS, &RESTING);
}

/// The message stands first in the list of actions, and the insert last.
#[test]
fn a_message_goes_with_an_insert_and_a_time_out(rt: HostRuntime) {
    static ROWS: [Row; 5] = [
        Tells(Cast(53), Posted(1)),
        Turns(
            3,
            1,
            Kind::Cast,
            0,
            1,
            &[Inserts(2), Sets(Named(5), After(5)), Sends(1)],
        ),
        Turns(3, 2, Kind::Internal, 1, 1, &[]),
        Takes(1, OTHER, 7),
        TAKES_NONE,
    ];
    static END: Seen = Seen {
        state: 1,
        latest: 3,
        ..AT_REST
    };
    static TIMERS: [Running; 1] = [(Named(5), 3, Due::At(8))];
    timers_are(rt, &PLAIN, &ROWS, &END, &TIMERS);
}

/// They want memory of their own. One is for the machine itself, and waits as the others do.
#[test]
fn five_messages_are_sent_in_one_list(rt: HostRuntime) {
    static ROWS: [Row; 8] = [
        Tells(Cast(54), Posted(1)),
        Turns(
            0,
            1,
            Kind::Cast,
            0,
            0,
            &[Sends(1), Sends(2), Sends(3), Sends(4), Sends(5)],
        ),
        Takes(1, OTHER, 1),
        Takes(2, THIRD, 2),
        Takes(3, OTHER, 3),
        Takes(4, ID, 4),
        Takes(5, FOREIGN, 5),
        TAKES_NONE,
    ];
    answers_are(rt, &PLAIN, &ROWS, &RESTING);
}

/// Does the commands of rows, and looks after each whether there is an event, whether there is a message, and whether
/// the machine is ready.
fn is_ready_after<T: Machine>(
    rt: &Host<impl Abort>,
    alloc: Global,
    rows: &[(Row, (bool, bool, bool))],
) {
    let mut machine = T::begun(rt, alloc, &PLAIN);
    for (row, wanted) in rows {
        does(rt, &mut machine, row.told(), &row.wanted());
        let seen = machine.see();
        let found = (seen.has_event, seen.has_message, seen.is_ready);
        same(rt, "an event, a message, either", &found, wanted);
    }
    drop(machine);
}

/// With an event, with both, with messages alone, with none; and after the end.
#[test]
fn a_machine_with_a_message_is_ready(rt: HostRuntime) {
    static ROWS: [(Row, (bool, bool, bool)); 10] = [
        (Tells(Cast(52), Posted(1)), (true, false, true)),
        (Tells(Cast(52), Posted(2)), (true, false, true)),
        (SENDS_TWO, (true, true, true)),
        (Takes(1, OTHER, 5), (true, true, true)),
        (Takes(2, THIRD, 6), (true, false, true)),
        (
            Turns(0, 2, Kind::Cast, 0, 0, &[Sends(3), Sends(4)]),
            (false, true, true),
        ),
        (Tells(Turn(0), Idle), (false, true, true)),
        (Takes(3, OTHER, 5), (false, true, true)),
        (Tells(Stop(4), Stopped(7)), (false, true, true)),
        (Takes(4, THIRD, 6), (false, false, false)),
    ];
    let rt = Host::new(rt);
    is_ready_after::<Core<Table>>(&rt, rt.alloc(), &ROWS);
    rt.end();
}

/// Looks at turns of a machine that leave nothing but messages: they end as where nothing is left.
fn turns_leave_messages<T: Machine>(rt: &Host<impl Abort>, alloc: Global) {
    static POSTS: [Row; 1] = [Tells(Cast(52), Posted(1))];
    static END: Seen = Seen {
        is_ready: true,
        has_message: true,
        ..AT_REST
    };
    let mut machine = T::begun(rt, alloc, &PLAIN);
    let mut other = T::begun(rt, alloc, &PLAIN);
    play(rt, &mut machine, &POSTS);
    play(rt, &mut other, &POSTS);
    let turns = turned(rt, &mut machine, &mut other, 0, 9);
    made(rt, turns, 1, TurnsEnd::Idle);
    sees(rt, &machine.see(), &END);
    drop(machine);
    drop(other);
}

#[test]
fn turns_end_though_a_message_is_left(rt: HostRuntime) {
    let rt = Host::new(rt);
    turns_leave_messages::<Core<Table>>(&rt, rt.alloc());
    rt.end();
}

/// The two messages of a machine, as its snapshot has them.
static TWO_MESSAGES: [Message<u32>; 2] = [
    Message {
        sender: ID,
        number: 1,
        target: OTHER,
        content: 5,
    },
    Message {
        sender: ID,
        number: 2,
        target: THIRD,
        content: 6,
    },
];

/// Looks at a snapshot with two messages, and at one after the first was taken out.
fn messages_follow(rt: &Host<impl Abort>, whole: Snapshot<Table>, later: Snapshot<Table>) {
    sent_is_whole(rt, &whole.outbox, &TWO_MESSAGES, 3);
    sent_is_whole(rt, &later.outbox, &TWO_MESSAGES[1..], 3);
    holds(rt, "the later one is another", whole != later);
    drop(whole);
    drop(later);
}

/// Looks at a snapshot of a machine that has sent two messages, and at another one after the first was taken out.
fn snapshots_follow<T: Machine>(rt: &Host<impl Abort>, mut machine: T, whole: Snapshot<Table>) {
    static ROWS: [Row; 1] = [Takes(1, OTHER, 5)];
    play(rt, &mut machine, &ROWS);
    let later = snapped(rt, &mut machine);
    drop(machine);
    messages_follow(rt, whole, later);
}

/// Has a machine send two messages, and looks at its snapshots.
fn messages_are_snapped<T: Machine>(rt: &Host<impl Abort>, alloc: Global) {
    static ROWS: [Row; 2] = [Tells(Cast(52), Posted(1)), SENDS_TWO];
    let mut machine = T::begun(rt, alloc, &PLAIN);
    play(rt, &mut machine, &ROWS);
    let whole = snapped(rt, &mut machine);
    snapshots_follow(rt, machine, whole);
}

#[test]
fn a_snapshot_has_the_messages(rt: HostRuntime) {
    let rt = Host::new(rt);
    messages_are_snapped::<Core<Table>>(&rt, rt.alloc());
    rt.end();
}
