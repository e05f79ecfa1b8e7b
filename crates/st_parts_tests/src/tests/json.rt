//! Tests of st_json: entries as lines of JSON, byte by byte, with memory and while an allocation is refused, where each
//! call is made again.
ghost use Rattle.std.specs.Prelude.{codes, if◌then◌else◌};
ghost use Rattle.serde_json.specs.Data.{number, unsigned};

mod rows;

use super::host::{Host, got, same};
use rows::{Line, Row, entry};
use serde_json::Value;
use st_cell::{Entry, MachineId, Refusal, Source};
use st_json::{ContentJson, StateNames, entry_json, entry_json_line};
use std::alloc::{AllocError, Global};
use std::process::Abort;

/// The names of a door's states.
struct Names;

impl StateNames<bool> for Names {
    ghost name_is = { λ names is_open. if is_open then codes "open" else codes "locked" };

    fn name(&self, is_open: bool) -> &str {
        if is_open { "open" } else { "locked" }
    }
}

/// Contents are numbers, and are written as such.
struct Numbers;

impl ContentJson<u32> for Numbers {
    ghost json_is = { λ numbers content. number (unsigned content) };

    fn json(&self, _alloc: Global, content: &u32) -> Result<Value, AllocError> {
        Ok(Value::from(*content))
    }
}

/// The entry of a row. Where memory was refused, it is made again.
fn entry_of(rt: &Host<impl Abort>, alloc: Global, number: u64, row: Row) -> Line {
    if let Ok(entry) = entry(alloc, number, row) {
        return entry;
    }
    rt.retry();
    let again = entry(alloc, number, row);
    got(rt, "one allocation alone is refused", again)
}

/// The line of an entry. Where memory was refused, the same call is made again.
fn line_of(rt: &Host<impl Abort>, alloc: Global, entry: &Line) -> String {
    if let Ok(line) = entry_json_line(alloc, &Names, &Numbers, entry) {
        return line;
    }
    rt.retry();
    let again = entry_json_line(alloc, &Names, &Numbers, entry);
    got(rt, "one allocation alone is refused", again)
}

/// The line of the entry of a row is this text and a line feed.
fn prints(rt: &Host<impl Abort>, alloc: Global, number: u64, row: Row, text: &str) -> Line {
    let entry = entry_of(rt, alloc, number, row);
    let line = line_of(rt, alloc, &entry);
    let wanted = Some((&b'\n', text.as_bytes()));
    same(rt, "the line", &line.as_bytes().split_last(), &wanted);
    drop(line);
    entry
}

/// A text reads as the JSON of the entry.
fn reads_back(rt: &Host<impl Abort>, alloc: Global, entry: Line, text: &str) {
    let value = got(
        rt,
        "it has a value",
        entry_json(alloc, &Names, &Numbers, &entry),
    );
    drop(entry);
    let read = got(rt, "it is JSON", Value::from_str(alloc, text));
    same(rt, "the value", &read, &value);
    drop(read);
    drop(value);
}

/// The machine that sent a message.
const FAR: MachineId = MachineId {
    slot: 12,
    serial: 345,
};

/// A call of a locked door opens it.
const OPENED: &str =
    r#"{"answer":{"Turn":{"Ok":{"Reported":{"after":"open","before":"locked","calls":[{"Handle":{"kind":{"Call":{"machine":{"serial":1,"slot":0},"request":3}},"number":3,"state":"locked"}},{"Enter":{"old":"locked","state":"open"}}],"done":"Finished","event":3,"inserted":[4,5],"replied":[{"machine":{"serial":1,"slot":0},"request":3}],"sent":[],"set":[["State",{"Set":{"After":10000}}],[{"Named":7},"Cancel"]]}}}},"command":{"Turn":20},"number":6,"source":"Caller"}"#;

/// An entry's number, its row, and its line without the line feed.
type Numbered = (u64, Row, &'static str);

/// Entries, and what is printed of each.
static ROWS: [Numbered; 12] = [
    (
        1,
        Row::Posts(Source::Port(2), Entry::Cast, 7, 1),
        r#"{"answer":{"Post":{"Ok":1}},"command":{"Post":["Cast",7]},"number":1,"source":{"Port":2}}"#,
    ),
    (
        2,
        Row::IsRefused(
            Source::Message(FAR, 18_446_744_073_709_551_615),
            Entry::Info,
            7,
            Refusal::Stopped(9),
        ),
        r#"{"answer":{"Post":{"Err":{"refusal":{"Stopped":9},"value":7}}},"command":{"Post":["Info",7]},"number":2,"source":{"Message":[{"serial":345,"slot":12},18446744073709551615]}}"#,
    ),
    (
        3,
        Row::IsRefused(Source::Caller, Entry::Call, 0, Refusal::NoMemory),
        r#"{"answer":{"Post":{"Err":{"refusal":"NoMemory","value":0}}},"command":{"Post":["Call",0]},"number":3,"source":"Caller"}"#,
    ),
    (
        4,
        Row::Ticks(10_000, 1),
        r#"{"answer":{"Tick":{"Ok":1}},"command":{"Tick":10000},"number":4,"source":"Caller"}"#,
    ),
    (
        5,
        Row::Idles(21),
        r#"{"answer":{"Turn":{"Ok":"Idle"}},"command":{"Turn":21},"number":5,"source":"Caller"}"#,
    ),
    (6, Row::Opens(20), OPENED),
    (
        7,
        Row::Replies(3, 8, false),
        r#"{"answer":{"Reply":false},"command":{"Reply":[{"machine":{"serial":1,"slot":0},"request":3},8]},"number":7,"source":"Caller"}"#,
    ),
    (
        8,
        Row::Collects(3, 8),
        r#"{"answer":{"Collect":{"Reply":8}},"command":{"Collect":{"machine":{"serial":1,"slot":0},"request":3}},"number":8,"source":"Caller"}"#,
    ),
    (
        9,
        Row::Takes(1, 8),
        r#"{"answer":{"TakeOut":{"content":8,"number":1,"sender":{"serial":1,"slot":0},"target":{"serial":2,"slot":1}}},"command":"TakeOut","number":9,"source":"Caller"}"#,
    ),
    (
        10,
        Row::TakesNone,
        r#"{"answer":{"TakeOut":null},"command":"TakeOut","number":10,"source":"Caller"}"#,
    ),
    (
        11,
        Row::Stops(70, 4),
        r#"{"answer":{"Stop":{"Ok":4}},"command":{"Stop":70},"number":11,"source":"Caller"}"#,
    ),
    (
        12,
        Row::Ends(22),
        r#"{"answer":{"Turn":{"Ok":{"Reported":{"after":"open","before":"open","calls":[{"Handle":{"kind":{"Timeout":"Event"},"number":5,"state":"open"}},{"Terminate":{"reason":9,"state":"open","word":4}}],"done":{"Ended":[9,4]},"event":5,"inserted":[],"replied":[],"sent":[2],"set":[]}}}},"command":{"Turn":22},"number":12,"source":"Caller"}"#,
    ),
];

/// Each entry has its line, which reads back.
fn each_prints(rt: &Host<impl Abort>, alloc: Global, rows: &[Numbered]) {
    for (number, row, text) in rows {
        let entry = prints(rt, alloc, *number, *row, text);
        reads_back(rt, alloc, entry, text);
    }
}

#[test]
fn each_entry_is_a_line_and_reads_back(rt: HostRuntime) {
    let rt = Host::with_memory(rt);
    each_prints(&rt, rt.alloc(), ROWS.as_slice());
    rt.end_with_memory();
}

#[test]
fn a_line_is_made_again_where_memory_was_wanting(rt: HostRuntime) {
    let rt = Host::new(rt);
    drop(prints(&rt, rt.alloc(), 6, Row::Opens(20), OPENED));
    rt.end();
}
