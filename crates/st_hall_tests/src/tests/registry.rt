//! Doors are started under names, found, unregistered and removed.
use super::answer::Answer;
use super::answer::Answer::{Count, Done, Id, Refused, Word};
use super::ask::Ask::{Find, Len, Remove, Start, Stop, Unregister, Whereis};
use super::ask::{Ask, Row};
use super::begun::{FIRST, SECOND, THIRD};
use super::doors::{Doors, no_door, start};
use super::host::{Host, Platform, holds, same};
use st_client::{MachineId, Reason, Refusal};
use std::mem;
use std::process::Abort;
use std::sync::Wait;

/// The second machine in the place of the first one.
const FIRST_AGAIN: MachineId = MachineId { slot: 0, serial: 2 };

/// A name of 64 bytes.
const LONGEST: &str = "0123456789abcdef0123456789abcdef0123456789abcdef0123456789abcdef";

/// A name of 65 bytes.
const TOO_LONG: &str = "0123456789abcdef0123456789abcdef0123456789abcdef0123456789abcdef0";

/// What is left of a registry at last: the id that the door says which was stopped last, how many doors there are, and the
/// names with the ids that they name, in order.
struct End {
    stopped: Option<MachineId>,
    len: usize,
    names: &'static [(&'static str, MachineId)],
}

/// Has the door of an id say its id, or stops it for a reason, if there is one, and keeps it then.
fn found(
    threads: &impl Wait,
    doors: &mut Doors,
    id: MachineId,
    stopping: Option<Reason>,
) -> Answer {
    let machine = match doors.registry.machine(id) {
        Ok(machine) => machine,
        Err(refusal) => return Refused(refusal),
    };
    match stopping {
        Some(reason) => {
            let word = machine.stop(threads, reason);
            drop(mem::replace(&mut doors.stopped, Some(machine)));
            Answer::of_word(word)
        }
        None => {
            let its = machine.id();
            drop(machine);
            Id(its)
        }
    }
}

/// Makes a call. What it answers.
fn answer(rt: &Host<impl Abort>, threads: &impl Wait, doors: &mut Doors, ask: Ask) -> Answer {
    match ask {
        Start(name) => Answer::of_id(start(rt, threads, doors, name)),
        Whereis(name) => Answer::of_id(doors.whereis(name)),
        Find(id) => found(threads, doors, id, None),
        Unregister(name) => Answer::of_done(doors.registry.unregister(name)),
        Remove(id) => Answer::of_done(doors.registry.remove_stopped(threads, id)),
        Stop(id, reason) => found(threads, doors, id, Some(reason)),
        Len => Count(doors.registry.len()),
    }
}

/// Looks that this is the next of some names, and the machine that it names.
fn is_named(rt: &impl Abort, next: Option<(&String, &MachineId)>, name: &str, id: MachineId) {
    match next {
        Some((found, its)) => {
            holds(rt, "the name", found.as_str() == name);
            holds(rt, "its machine", *its == id);
        }
        None => holds(rt, "there is a name more", false),
    }
}

/// Looks at what is left.
fn leaves(rt: &impl Abort, doors: &Doors, end: &End) {
    let stopped = match &doors.stopped {
        Some(machine) => Some(machine.id()),
        None => None,
    };
    same(rt, "who was stopped", &stopped, &end.stopped);
    same(rt, "how many there are", &doors.registry.len(), &end.len);
    let mut names = doors.registry.names();
    for (name, id) in end.names {
        is_named(rt, names.next(), *name, *id);
    }
    holds(rt, "there is no name more", names.next().is_none());
}

/// A whole test: what the calls of rows answer, and what they leave.
fn answers_are<R: Platform>(rt: R, rows: &[Row], end: &End) {
    let threads = rt;
    let rt = Host::new(rt);
    let mut doors = no_door(&rt, rt.alloc(), &[1, 2, 3, 4]);
    holds(&rt, "it is empty at first", doors.registry.is_empty());
    for (word, ask, wanted) in rows {
        same(&rt, *word, &answer(&rt, &threads, &mut doors, *ask), wanted);
    }
    leaves(&rt, &doors, end);
    drop(doors);
    rt.end();
}

/// A door is stopped and removed, and another is started under its name, which is then let go.
static ONE_FOR_GOOD: [Row; 13] = [
    ("the first door", Start(Some("front")), Id(FIRST)),
    (
        "the name is taken",
        Start(Some("front")),
        Refused(Refusal::AlreadyStarted(FIRST)),
    ),
    ("it runs", Remove(FIRST), Refused(Refusal::NotStopped)),
    ("no button counts", Stop(FIRST, 3), Word(0)),
    ("it ended", Remove(FIRST), Done),
    (
        "its name is gone",
        Whereis("front"),
        Refused(Refusal::NoSuchName),
    ),
    ("the second door", Start(Some("front")), Id(FIRST_AGAIN)),
    (
        "the first one is gone",
        Find(FIRST),
        Refused(Refusal::NoSuchMachine),
    ),
    (
        "it is gone for good",
        Remove(FIRST),
        Refused(Refusal::NoSuchMachine),
    ),
    ("the name is let go", Unregister("front"), Done),
    (
        "the name was let go",
        Unregister("front"),
        Refused(Refusal::NoSuchName),
    ),
    (
        "no such name",
        Whereis("front"),
        Refused(Refusal::NoSuchName),
    ),
    (
        "the second one is still there",
        Find(FIRST_AGAIN),
        Id(FIRST_AGAIN),
    ),
];

#[test]
fn an_id_names_one_machine_for_good(rt: HostRuntime) {
    static END: End = End {
        stopped: Some(FIRST),
        len: 1,
        names: &[],
    };
    answers_are(rt, &ONE_FOR_GOOD, &END);
}

#[test]
fn names_stand_in_order(rt: HostRuntime) {
    static ROWS: [Row; 5] = [
        ("the first door", Start(Some("front")), Id(FIRST)),
        ("the second door", Start(Some("back")), Id(SECOND)),
        ("the third door", Start(Some("side")), Id(THIRD)),
        ("back is let go", Unregister("back"), Done),
        ("three machines are left", Len, Count(3)),
    ];
    static END: End = End {
        stopped: None,
        len: 3,
        names: &[("front", FIRST), ("side", THIRD)],
    };
    answers_are(rt, &ROWS, &END);
}

#[test]
fn a_name_has_1_to_64_bytes(rt: HostRuntime) {
    static ROWS: [Row; 4] = [
        ("the empty name", Start(Some("")), Refused(Refusal::BadName)),
        (
            "a name too long",
            Start(Some(TOO_LONG)),
            Refused(Refusal::BadName),
        ),
        ("the longest name", Start(Some(LONGEST)), Id(FIRST)),
        ("it is found", Whereis(LONGEST), Id(FIRST)),
    ];
    static END: End = End {
        stopped: None,
        len: 1,
        names: &[(LONGEST, FIRST)],
    };
    answers_are(rt, &ROWS, &END);
}
