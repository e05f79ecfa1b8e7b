//! Calls of a directory, and what they are to answer.
use st_directory::{MachineId, Refusal};

/// One call of a directory.
#[derive(Clone, Copy)]
pub enum Call<'a> {
    /// A value is put in, under a name if there is one.
    Put(Option<&'a str>, u32),
    Get(MachineId),
    Whereis(&'a str),
    Unregister(&'a str),
    Remove(MachineId),
}

/// What a call answers.
#[derive(Clone, Copy, Debug, PartialEq, Eq)]
pub enum Answer {
    Id(MachineId),
    Value(u32),
    Refused(Refusal),
}

/// A call, and what it is to answer.
pub type Row = (Call<'static>, Answer);

const FIRST: MachineId = MachineId { slot: 0, serial: 1 };

const SECOND: MachineId = MachineId { slot: 1, serial: 2 };

const THIRD: MachineId = MachineId { slot: 2, serial: 3 };

const FIRST_AGAIN: MachineId = MachineId { slot: 0, serial: 2 };

const BEHIND: MachineId = MachineId { slot: 1, serial: 3 };

const SECOND_AGAIN: MachineId = MachineId { slot: 1, serial: 4 };

const FOURTH: MachineId = MachineId { slot: 3, serial: 5 };

const LONGEST: &str = "0123456789abcdef0123456789abcdef0123456789abcdef0123456789abcdef";

const TOO_LONG: &str = "0123456789abcdef0123456789abcdef0123456789abcdef0123456789abcdef0";

/// A name goes with its value, and its id names nothing for good.
pub static AN_ID_IS_GIVEN_ONCE: [Row; 16] = [
    (Call::Put(Some("front"), 7), Answer::Id(FIRST)),
    (
        Call::Put(Some("front"), 8),
        Answer::Refused(Refusal::AlreadyStarted(FIRST)),
    ),
    (Call::Get(FIRST), Answer::Value(7)),
    (Call::Whereis("front"), Answer::Id(FIRST)),
    (Call::Remove(FIRST), Answer::Value(7)),
    (Call::Whereis("front"), Answer::Refused(Refusal::NoSuchName)),
    (Call::Get(FIRST), Answer::Refused(Refusal::NoSuchMachine)),
    (Call::Put(Some("front"), 9), Answer::Id(FIRST_AGAIN)),
    (Call::Get(FIRST), Answer::Refused(Refusal::NoSuchMachine)),
    (Call::Remove(FIRST), Answer::Refused(Refusal::NoSuchMachine)),
    (Call::Unregister("front"), Answer::Id(FIRST_AGAIN)),
    (Call::Whereis("front"), Answer::Refused(Refusal::NoSuchName)),
    (
        Call::Unregister("front"),
        Answer::Refused(Refusal::NoSuchName),
    ),
    (Call::Get(FIRST_AGAIN), Answer::Value(9)),
    (Call::Put(None, 10), Answer::Id(BEHIND)),
    (Call::Get(BEHIND), Answer::Value(10)),
];

/// A name has 1 to 64 bytes.
pub static NAMES_HAVE_1_TO_64_BYTES: [Row; 6] = [
    (Call::Put(Some(""), 7), Answer::Refused(Refusal::BadName)),
    (Call::Put(Some("b"), 8), Answer::Id(FIRST)),
    (Call::Put(Some(LONGEST), 9), Answer::Id(SECOND)),
    (
        Call::Put(Some(TOO_LONG), 10),
        Answer::Refused(Refusal::BadName),
    ),
    (Call::Whereis(LONGEST), Answer::Id(SECOND)),
    (
        Call::Whereis(TOO_LONG),
        Answer::Refused(Refusal::NoSuchName),
    ),
];

/// Three names are registered, the middle one goes, and another comes in.
pub static A_MIDDLE_NAME_GOES: [Row; 5] = [
    (Call::Put(Some("front"), 7), Answer::Id(FIRST)),
    (Call::Put(Some("side"), 8), Answer::Id(SECOND)),
    (Call::Put(Some("back"), 9), Answer::Id(THIRD)),
    (Call::Remove(SECOND), Answer::Value(8)),
    (Call::Put(Some("cellar"), 10), Answer::Id(SECOND_AGAIN)),
];

/// The names then, in order of registration.
pub static OTHERS_IN_ORDER: [(&str, MachineId); 3] = [
    ("front", FIRST),
    ("back", THIRD),
    ("cellar", SECOND_AGAIN),
];

/// The ids then, by rising slot.
pub static BY_SLOT: [MachineId; 3] = [FIRST, SECOND_AGAIN, THIRD];

/// The first name goes, and is registered again for another value.
pub static THE_FIRST_NAME_GOES: [Row; 2] = [
    (Call::Unregister("front"), Answer::Id(FIRST)),
    (Call::Put(Some("front"), 11), Answer::Id(FOURTH)),
];

/// The names then, in order of registration.
pub static FRONT_IS_LAST: [(&str, MachineId); 3] = [
    ("back", THIRD),
    ("cellar", SECOND_AGAIN),
    ("front", FOURTH),
];

/// What a full directory answers, and that there is a place again once a value goes.
pub static A_FULL_DIRECTORY: [Row; 5] = [
    (Call::Put(None, 8), Answer::Refused(Refusal::Full)),
    (Call::Put(Some("front"), 8), Answer::Refused(Refusal::Full)),
    (Call::Put(Some(""), 8), Answer::Refused(Refusal::BadName)),
    (Call::Remove(SECOND), Answer::Value(7)),
    (
        Call::Put(Some("front"), 8),
        Answer::Id(MachineId {
            slot: 1,
            serial: 65_537,
        }),
    ),
];
