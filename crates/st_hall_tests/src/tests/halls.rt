//! A hall's calls, one after another.
use super::answer::Answer::{Count, Done, Id, Refused, Word};
use super::ask::Ask::{Find, Len, Remove, Start, Stop, Unregister, Whereis};
use super::begun::{FIRST, SECOND, THIRD};
use super::hall_row::Act::{Asks, Names, Opens, Posts, Serves, Turns};
use super::hall_row::Row;
use super::plain_hall::hall_with_memory;
use st_hall::{MachineId, Refusal};

/// The machine of the place 7 in a hall that was filled from the place 0 on.
const EIGHTH: MachineId = MachineId { slot: 7, serial: 8 };

/// The machine that takes its place in a hall where 65,536 were started.
const IN_ITS_PLACE: MachineId = MachineId {
    slot: 7,
    serial: 65_537,
};

/// A machine is started under a name, served by one token, and removed while its next token is outstanding.
static FOUND_SERVED_AND_REMOVED: [Row; 21] = [
    ("it is empty at first", Asks(Len, Count(0))),
    ("it is started", Asks(Start(Some("front")), Id(FIRST))),
    ("it is found", Asks(Whereis("front"), Id(FIRST))),
    ("it is the only one", Asks(Len, Count(1))),
    ("its port", Opens(FIRST)),
    ("the first event", Posts(1)),
    (
        "it is too late for a turn",
        Serves(1 << 63, true, Some(Refusal::Moment)),
    ),
    ("one more event waits", Turns(true)),
    ("no event waits", Turns(false)),
    (
        "the token was retired",
        Serves(5, false, Some(Refusal::NotQueued)),
    ),
    ("the third event", Posts(3)),
    ("it runs", Asks(Remove(FIRST), Refused(Refusal::NotStopped))),
    ("its id", Asks(Find(FIRST), Id(FIRST))),
    ("the last word", Asks(Stop(FIRST, 3), Word(7))),
    ("it is removed", Asks(Remove(FIRST), Done)),
    (
        "it was removed",
        Asks(Remove(FIRST), Refused(Refusal::NoSuchMachine)),
    ),
    (
        "its name is gone",
        Asks(Whereis("front"), Refused(Refusal::NoSuchName)),
    ),
    (
        "it is gone",
        Asks(Find(FIRST), Refused(Refusal::NoSuchMachine)),
    ),
    ("its token rests", Turns(false)),
    ("no name is left", Names(&[])),
    ("it is empty at last", Asks(Len, Count(0))),
];

#[test]
fn a_machine_is_found_served_and_removed(rt: HostRuntime) {
    hall_with_memory(rt, 0, &FOUND_SERVED_AND_REMOVED);
}

#[test]
fn names_stand_in_order(rt: HostRuntime) {
    static ROWS: [Row; 7] = [
        ("the first machine", Asks(Start(Some("front")), Id(FIRST))),
        ("the second machine", Asks(Start(Some("back")), Id(SECOND))),
        ("the third machine", Asks(Start(Some("side")), Id(THIRD))),
        ("the name is let go", Asks(Unregister("back"), Done)),
        (
            "the name was let go",
            Asks(Unregister("back"), Refused(Refusal::NoSuchName)),
        ),
        ("three machines are left", Asks(Len, Count(3))),
        (
            "two names are left",
            Names(&[("front", FIRST), ("side", THIRD)]),
        ),
    ];
    hall_with_memory(rt, 0, &ROWS);
}

/// Where a machine of a full hall is removed, the next one takes its place.
#[test]
fn a_hall_of_65_536_machines_is_full(rt: HostRuntime) {
    static ROWS: [Row; 7] = [
        (
            "there is no place",
            Asks(Start(None), Refused(Refusal::Full)),
        ),
        ("all are there", Asks(Len, Count(65_536))),
        ("its id", Asks(Find(EIGHTH), Id(EIGHTH))),
        ("the last word", Asks(Stop(EIGHTH, 3), Word(7))),
        ("it is removed", Asks(Remove(EIGHTH), Done)),
        (
            "the next takes its place",
            Asks(Start(None), Id(IN_ITS_PLACE)),
        ),
        (
            "there is no place again",
            Asks(Start(None), Refused(Refusal::Full)),
        ),
    ];
    hall_with_memory(rt, 65_536, &ROWS);
}
