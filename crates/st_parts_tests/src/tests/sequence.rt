//! Tests of st_diagram's sequence diagrams: a text, byte by byte, with memory and while an allocation is refused, where
//! the call is made again.
ghost use Rattle.std.specs.Prelude.{codes, if◌then◌else◌};

use super::host::{Host, got, same};
use super::trace::journal_of;
use super::trace::rows::{DoorEntry, Row, Turn};
use st_cell::{Entry, MachineId};
use st_core::Done;
use st_diagram::{DiagramNames, sequence};
use st_events::Kind;
use std::alloc::{AllocError, Global};
use std::process::Abort;

/// The names of a door's states, and of all contents.
struct Names;

impl DiagramNames<bool, char> for Names {
    ghost state_is = { λ names is_open. if is_open then codes "Open" else codes "Locked" };

    ghost content_is = { λ names content. codes "push" };

    fn state(&self, alloc: Global, is_open: bool) -> Result<String, AllocError> {
        String::from_str(alloc, if is_open { "Open" } else { "Locked" })
    }

    fn content(&self, alloc: Global, _content: &char) -> Result<String, AllocError> {
        String::from_str(alloc, "push")
    }
}

/// The text of entries. Where memory was refused, the same call is made again.
fn text_of(rt: &Host<impl Abort>, alloc: Global, entries: &[DoorEntry]) -> String {
    if let Ok(text) = sequence(alloc, &Names, "front", entries) {
        return text;
    }
    rt.retry();
    let again = sequence(alloc, &Names, "front", entries);
    got(rt, "one allocation alone is refused", again)
}

/// A turn of a locked door that finished its event and answered a request.
const OPENED: Turn = Turn {
    now: 5,
    event: 1,
    kind: Kind::Cast,
    before: false,
    after: true,
    done: Done::Finished,
    replied: 1,
    inserted: 0,
    set: 0,
    sent: 0,
};

/// The entries of a door.
static ROWS: [(u64, Row); 12] = [
    (1, Row::Posts(3, Entry::Call, 1)),
    (2, Row::Delivers(MachineId { slot: 4, serial: 5 }, 6, 2)),
    (3, Row::Turns(OPENED)),
    (
        4,
        Row::Turns(Turn {
            event: 2,
            done: Done::PutOff,
            replied: 0,
            ..OPENED
        }),
    ),
    (5, Row::Ticks(1_000, 2)),
    (6, Row::Takes(1)),
    (7, Row::Replies(1, true)),
    (8, Row::Replies(7, false)),
    (9, Row::Collects(1)),
    (10, Row::CollectsReason(8, 9)),
    (
        11,
        Row::Turns(Turn {
            event: 2,
            done: Done::Ended(9, 4),
            replied: 2,
            ..OPENED
        }),
    ),
    (12, Row::Stops(7, 3)),
];

#[test]
fn a_journal_is_drawn_with_an_arrow_for_what_comes_and_goes(rt: HostRuntime) {
    let rt = Host::new(rt);
    let alloc = rt.alloc();
    let journal = journal_of(&rt, alloc, 0, ROWS.as_slice());
    let text = text_of(&rt, alloc, journal.entries.as_slice());
    let wanted = "\
sequenceDiagram
    participant m as front
    port3->>m: 1 call push
    machine4_5->>m: 2 info push
    Note over m: 1 handled in Locked, then Open
    m-->>caller: reply to 0
    Note over m: 2 postponed in Locked
    Note over m: at 1000, 2 expired
    m->>machine1_2: push
    caller->>m: reply to 1 push
    caller-xm: reply to 7 push
    m->>caller: reply to 1 push
    m-xcaller: no reply to 8, ended with 9
    Note over m: 2 ended with 9 in Locked, word 4
    m-->>caller: reply to 0
    m-->>caller: reply to 0
    caller-xm: stop 7, word 3
";
    same(&rt, "the text", &text.as_str(), &wanted);
    drop(text);
    drop(journal);
    rt.end();
}
