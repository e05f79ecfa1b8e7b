//! Tests of st_trace: traces, byte by byte, with memory and while an allocation is refused, where each call is made
//! again.
ghost use Rattle.std.specs.Prelude.{codes, if◌then◌else◌};

pub mod rows;

use super::host::{Host, got, same};
use rows::{DoorEntry, Row, Turn, journal};
use st_cell::Entry;
use st_core::Done;
use st_events::{Kind, MachineId, Tag, Timer};
use st_trace::{
    Journal, StateNames, Totals, entry_line, latest_after, machine_line, summary, summary_line,
    totals_in, trace_text,
};
use std::alloc::{AllocError, Global};
use std::process::Abort;

/// The names of a door's states.
struct Names;

impl StateNames<bool> for Names {
    ghost name_is = { λ names is_open. if is_open then codes "open" else codes "locked" };

    fn name(&self, is_open: bool) -> &str {
        if is_open { "open" } else { "locked" }
    }
}

/// A machine whose message is delivered.
const NEAR: MachineId = MachineId { slot: 0, serial: 1 };

/// Another one, with longer numbers.
const FAR: MachineId = MachineId {
    slot: 12,
    serial: 345,
};

/// The first request.
const FIRST: Tag = Tag {
    machine: NEAR,
    request: 1,
};

/// The journal of the rows. Where memory was refused, it is made again.
pub fn journal_of(
    rt: &Host<impl Abort>,
    alloc: Global,
    from: u64,
    rows: &[(u64, Row)],
) -> Journal<bool, char> {
    if let Ok(journal) = journal(alloc, from, rows) {
        return journal;
    }
    rt.retry();
    let again = journal(alloc, from, rows);
    got(rt, "one allocation alone is refused", again)
}

/// The text of a journal. Where memory was refused, the same call is made again.
fn text_of(rt: &Host<impl Abort>, alloc: Global, journal: &Journal<bool, char>) -> Vec<u8> {
    if let Ok(text) = trace_text(alloc, journal, &Names) {
        return text;
    }
    rt.retry();
    let again = trace_text(alloc, journal, &Names);
    got(rt, "one allocation alone is refused", again)
}

/// Puts the line of each entry behind a text, and behind them the line of what they come to.
fn push_lines(
    alloc: Global,
    text: &mut String,
    from: u64,
    entries: &[DoorEntry],
) -> Result<(), AllocError> {
    let mut latest = from;
    for entry in entries {
        latest = latest_after(latest, &entry.command);
        let line = entry_line(alloc, &Names, latest, entry)?;
        text.push_str(line.as_str())?;
    }
    let line = summary_line(alloc, totals_in(entries))?;
    text.push_str(line.as_str())
}

/// The lines of a journal's trace, made one by one and put together.
fn joined(alloc: Global, journal: &Journal<bool, char>) -> Result<Vec<u8>, AllocError> {
    let mut text = machine_line(alloc, journal.id, journal.label.as_str())?;
    push_lines(alloc, &mut text, journal.from, journal.entries.as_slice())?;
    Ok(text.into_bytes())
}

/// The same, where memory was refused, once more.
fn lines_of(rt: &Host<impl Abort>, alloc: Global, journal: &Journal<bool, char>) -> Vec<u8> {
    if let Ok(text) = joined(alloc, journal) {
        return text;
    }
    rt.retry();
    let again = joined(alloc, journal);
    got(rt, "one allocation alone is refused", again)
}

/// The rows come to these totals and print this text.
fn prints(
    rt: &Host<impl Abort>,
    alloc: Global,
    from: u64,
    rows: &[(u64, Row)],
    totals: Totals,
    wanted: &str,
) {
    let journal = journal_of(rt, alloc, from, rows);
    same(rt, "the totals", &summary(&journal), &totals);
    let text = text_of(rt, alloc, &journal);
    same(rt, "the text", &text.as_slice(), &wanted.as_bytes());
    let lines = lines_of(rt, alloc, &journal);
    same(rt, "the lines", &lines.as_slice(), &wanted.as_bytes());
    drop(lines);
    drop(text);
    drop(journal);
}

/// A turn of a locked door at the moment 0, that finished its event and set a timer.
const PRESSED: Turn = Turn {
    now: 0,
    event: 1,
    kind: Kind::Cast,
    before: false,
    after: false,
    done: Done::Finished,
    replied: 0,
    inserted: 0,
    set: 1,
    sent: 0,
};

/// A turn of an open door at the moment 20, that finished its event and did nothing else.
const LEFT_OPEN: Turn = Turn {
    now: 20,
    event: 0,
    kind: Kind::Info,
    before: true,
    after: true,
    done: Done::Finished,
    replied: 0,
    inserted: 0,
    set: 0,
    sent: 0,
};

/// The turn in which an open door is locked again.
const LOCKED_AGAIN: Turn = Turn {
    now: 10_000,
    event: 4,
    kind: Kind::Timeout(Timer::State),
    after: false,
    ..LEFT_OPEN
};

#[test]
fn one_button_prints_two_lines(rt: HostRuntime) {
    static ROWS: [(u64, Row); 2] = [(1, Row::Posts(1, Entry::Cast, 1)), (2, Row::Turns(PRESSED))];
    let rt = Host::new(rt);
    prints(
        &rt,
        rt.alloc(),
        0,
        &ROWS,
        Totals {
            posts: 1,
            turns: 1,
            finished: 1,
            put_off: 0,
        },
        "\
machine 0 1 front
         1      1 post                      -          1 cast
         2      - turn                      0          1 cast locked locked finished 0 0 1
summary posts 1 turns 1 finished 1 put_off 0
",
    );
    rt.end();
}

#[test]
fn a_door_that_opens_and_is_locked_again_prints_six_lines(rt: HostRuntime) {
    static ROWS: [(u64, Row); 6] = [
        (1, Row::Posts(1, Entry::Cast, 1)),
        (2, Row::Turns(PRESSED)),
        (3, Row::Posts(1, Entry::Cast, 3)),
        (
            4,
            Row::Turns(Turn {
                event: 3,
                after: true,
                ..PRESSED
            }),
        ),
        (5, Row::Ticks(10_000, 1)),
        (6, Row::Turns(LOCKED_AGAIN)),
    ];
    let rt = Host::with_memory(rt);
    prints(
        &rt,
        rt.alloc(),
        0,
        &ROWS,
        Totals {
            posts: 2,
            turns: 3,
            finished: 3,
            put_off: 0,
        },
        "\
machine 0 1 front
         1      1 post                      -          1 cast
         2      - turn                      0          1 cast locked locked finished 0 0 1
         3      1 post                      -          3 cast
         4      - turn                      0          3 cast locked open finished 0 0 1
         5      - tick                  10000          1 -
         6      - turn                  10000          4 state_timeout open locked finished 0 0 0
summary posts 2 turns 3 finished 3 put_off 0
",
    );
    rt.end_with_memory();
}

#[test]
fn a_turn_that_sends_says_how_many_messages_and_a_take_out_says_to_whom(rt: HostRuntime) {
    static ROWS: [(u64, Row); 3] = [
        (1, Row::Posts(1, Entry::Cast, 1)),
        (
            2,
            Row::Turns(Turn {
                set: 0,
                sent: 1,
                ..PRESSED
            }),
        ),
        (3, Row::Takes(1)),
    ];
    let rt = Host::new(rt);
    prints(
        &rt,
        rt.alloc(),
        0,
        &ROWS,
        Totals {
            posts: 1,
            turns: 1,
            finished: 1,
            put_off: 0,
        },
        "\
machine 0 1 front
         1      1 post                      -          1 cast
         2      - turn                      0          1 cast locked locked finished 0 0 0 sent 1
         3      - take                      -          1 to 1 2
summary posts 1 turns 1 finished 1 put_off 0
",
    );
    rt.end();
}

#[test]
fn a_delivered_message_says_from_whom_it_comes(rt: HostRuntime) {
    static ROWS: [(u64, Row); 4] = [
        (1, Row::Delivers(NEAR, 1, 1)),
        (2, Row::Delivers(FAR, 18_446_744_073_709_551_615, 2)),
        (3, Row::Takes(1)),
        (4, Row::Posts(1, Entry::Info, 4)),
    ];
    let rt = Host::new(rt);
    prints(
        &rt,
        rt.alloc(),
        0,
        &ROWS,
        Totals {
            posts: 3,
            turns: 0,
            finished: 0,
            put_off: 0,
        },
        "\
machine 0 1 front
         1      - post                      -          1 info from 0 1 1
         2      - post                      -          2 info from 12 345 18446744073709551615
         3      - take                      -          1 to 1 2
         4      1 post                      -          4 info
summary posts 3 turns 0 finished 0 put_off 0
",
    );
    rt.end();
}

#[test]
fn entries_keep_their_numbers_after_a_cut(rt: HostRuntime) {
    static ROWS: [(u64, Row); 2] = [(5, Row::Ticks(10_000, 1)), (6, Row::Turns(LOCKED_AGAIN))];
    let rt = Host::new(rt);
    prints(
        &rt,
        rt.alloc(),
        0,
        &ROWS,
        Totals {
            posts: 0,
            turns: 1,
            finished: 1,
            put_off: 0,
        },
        "\
machine 0 1 front
         5      - tick                  10000          1 -
         6      - turn                  10000          4 state_timeout open locked finished 0 0 0
summary posts 0 turns 1 finished 1 put_off 0
",
    );
    rt.end();
}

#[test]
fn each_word_has_its_own_rest(rt: HostRuntime) {
    static ROWS: [(u64, Row); 17] = [
        (1, Row::Posts(1, Entry::Call, 1)),
        (2, Row::Posts(2, Entry::Cast, 2)),
        (3, Row::Posts(1, Entry::Info, 3)),
        (4, Row::Ticks(2, 0)),
        (5, Row::Ticks(10, 2)),
        (
            6,
            Row::Turns(Turn {
                now: 5,
                event: 1,
                kind: Kind::Call(FIRST),
                before: false,
                replied: 2,
                inserted: 1,
                set: 3,
                ..LEFT_OPEN
            }),
        ),
        (
            7,
            Row::Turns(Turn {
                event: 2,
                kind: Kind::Cast,
                done: Done::PutOff,
                ..LEFT_OPEN
            }),
        ),
        (
            8,
            Row::Turns(Turn {
                event: 3,
                ..LEFT_OPEN
            }),
        ),
        (
            9,
            Row::Turns(Turn {
                event: 4,
                kind: Kind::Internal,
                ..LEFT_OPEN
            }),
        ),
        (
            10,
            Row::Turns(Turn {
                event: 5,
                kind: Kind::Timeout(Timer::Event),
                ..LEFT_OPEN
            }),
        ),
        (
            11,
            Row::Turns(Turn {
                event: 6,
                kind: Kind::Timeout(Timer::State),
                after: false,
                ..LEFT_OPEN
            }),
        ),
        (
            12,
            Row::Turns(Turn {
                event: 7,
                kind: Kind::Timeout(Timer::Named(4_294_967_295)),
                before: false,
                after: false,
                done: Done::Ended(9, 4),
                ..LEFT_OPEN
            }),
        ),
        (13, Row::Replies(1, true)),
        (14, Row::Replies(1, false)),
        (15, Row::Collects(1)),
        (16, Row::CollectsReason(8, 9)),
        (17, Row::Stops(70, 4)),
    ];
    let rt = Host::with_memory(rt);
    prints(
        &rt,
        rt.alloc(),
        3,
        &ROWS,
        Totals {
            posts: 3,
            turns: 7,
            finished: 5,
            put_off: 1,
        },
        "\
machine 0 1 front
         1      1 post                      -          1 call
         2      2 post                      -          2 cast
         3      1 post                      -          3 info
         4      - tick                      3          0 -
         5      - tick                     10          2 -
         6      - turn                     10          1 call locked open finished 2 1 3
         7      - turn                     20          2 cast open open put_off 0 0 0
         8      - turn                     20          3 info open open finished 0 0 0
         9      - turn                     20          4 internal open open finished 0 0 0
        10      - turn                     20          5 timeout open open finished 0 0 0
        11      - turn                     20          6 state_timeout open locked finished 0 0 0
        12      - turn                     20          7 timeout:4294967295 locked locked ended:9 0 0 0
        13      - reply                     -          1 yes
        14      - reply                     -          1 no
        15      - collect                   -          1 reply
        16      - collect                   -          8 stopped:9
        17      - stop                      -         70 word:4
summary posts 3 turns 7 finished 5 put_off 1
",
    );
    rt.end_with_memory();
}

#[test]
fn a_number_that_is_longer_than_its_column_takes_the_bytes_that_it_needs(rt: HostRuntime) {
    static ROWS: [(u64, Row); 2] = [
        (
            12_345_678_901,
            Row::Posts(1_234_567, Entry::Info, 98_765_432_109),
        ),
        (
            12_345_678_902,
            Row::Ticks(18_446_744_073_709_551_615, 11_111_111_111),
        ),
    ];
    let rt = Host::with_memory(rt);
    prints(
        &rt,
        rt.alloc(),
        0,
        &ROWS,
        Totals {
            posts: 1,
            turns: 0,
            finished: 0,
            put_off: 0,
        },
        "\
machine 0 1 front
12345678901 1234567 post                      - 98765432109 info
12345678902      - tick    18446744073709551615 11111111111 -
summary posts 1 turns 0 finished 0 put_off 0
",
    );
    rt.end_with_memory();
}
