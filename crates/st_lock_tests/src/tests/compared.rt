//! What calls come to, beside what is wanted of their rows.
use super::asked::{Answered, Given};
use super::did::reports;
use super::host::{Host, same};
use super::past::Past;
use super::row::{Line, Row, Sight, Told};
use super::shows::shows;
use super::traced::trace;
use st_core::{Answer, Turned};
use st_lock::{Journal, JournalEntry, Look};
use std::alloc::Global;
use std::process::Abort;

/// Looks that an answer in a journal is the one that is wanted of a row.
fn is_told(rt: &impl Abort, row: usize, answer: &Answer<u32, u32>, told: &Told) {
    match (answer, told) {
        (_, Told::Answer(other)) => shows(rt, row, "the answer in its entry", *answer == *other),
        (Answer::Turn(Ok(Turned::Reported(report))), Told::Turned(handled, did)) => {
            reports(rt, row, report, *handled, did);
        }
        _ => shows(rt, row, "its entry has a report", false),
    }
}

/// Looks that an entry is the one that is wanted of a row.
fn is_line(rt: &impl Abort, row: usize, entry: &JournalEntry<u32, u32>, line: &Line) {
    shows(rt, row, "the entry's number", entry.number == line.number);
    let is_from_there = entry.source == line.source;
    shows(rt, row, "where the entry came from", is_from_there);
    let is_asked = entry.command == line.command;
    shows(rt, row, "the entry's command", is_asked);
    is_told(rt, row, &entry.answer, &line.told);
}

/// Looks that there is an entry, which is the one that is wanted of a row.
fn is_there(rt: &impl Abort, row: usize, entry: Option<&JournalEntry<u32, u32>>, line: &Line) {
    match entry {
        Some(entry) => is_line(rt, row, entry, line),
        None => shows(rt, row, "there is an entry", false),
    }
}

/// Looks that the next entry is the one that is wanted of a row, if one is.
fn stands(rt: &impl Abort, row: usize, entry: Option<&JournalEntry<u32, u32>>, line: Option<Line>) {
    if let Some(line) = line {
        is_there(rt, row, entry, &line);
        drop(line);
    }
}

/// Looks that a journal has the entries of the rows that were done, and no other; or none, where none is kept.
pub fn are_lines(rt: &impl Abort, entries: &[JournalEntry<u32, u32>], past: &Past<'_>) {
    let lines = if past.keeps { past.done } else { 0 };
    let mut left = entries.iter();
    for (place, row) in past.rows.iter().take(lines).enumerate() {
        let line = row.line(past.id);
        let entry = if line.is_some() { left.next() } else { None };
        stands(rt, place, entry, line);
    }
    let is_last = left.next().is_none();
    shows(rt, past.done, "there is no entry more", is_last);
}

/// Looks that a look is the one that is wanted of a row. It has no numbers where no journal is kept.
fn is_sight(rt: &impl Abort, past: &Past<'_>, look: &Look<u32, u32>, sight: &Sight) {
    let row = past.done;
    shows(rt, row, "the state that is seen", look.state == 0);
    shows(rt, row, "the data that are seen", look.held == 7);
    shows(rt, row, "how many wait", look.waiting == sight.waiting);
    shows(rt, row, "how many entries", look.entries == sight.entries);
    shows(rt, row, "how many are mine", look.mine == sight.mine);
    let numbers: &[u64] = if past.keeps { sight.numbers } else { &[] };
    let are_mine = look.numbers.as_slice() == numbers;
    shows(rt, row, "the numbers of mine", are_mine);
    shows(rt, row, "how it ended", look.ended == sight.ended);
}

/// Looks that a journal has the machine's id, this label and this moment, and the entries of the rows that were done.
fn is_journal(
    rt: &impl Abort,
    past: &Past<'_>,
    journal: &Journal<u32, u32>,
    label: &str,
    from: u64,
) {
    let row = past.done;
    shows(rt, row, "whose journal it is", journal.id == past.id);
    shows(rt, row, "the label", journal.label.as_str() == label);
    shows(rt, row, "the moment of the base", journal.from == from);
    are_lines(rt, journal.entries.as_slice(), past);
}

/// The same of a copy. Where no journal is kept, its base is the machine as it is, and its moment is not told.
fn is_copy(rt: &impl Abort, past: &Past<'_>, journal: &Journal<u32, u32>, label: &str, from: u64) {
    let moment = if past.keeps { from } else { journal.from };
    is_journal(rt, past, journal, label, moment);
}

/// Looks that entries have these numbers.
fn are_numbered(rt: &impl Abort, row: usize, entries: &[JournalEntry<u32, u32>], numbers: &[u64]) {
    same(
        rt,
        "the row and its entries",
        &(row, entries.len()),
        &(row, numbers.len()),
    );
    for (place, number) in numbers.iter().enumerate() {
        let entry = entries.get(place).expect(rt, "there is an entry");
        same(
            rt,
            "the row and the number of an entry",
            &(row, entry.number),
            &(row, *number),
        );
    }
}

/// Looks that a text is printed of a journal.
fn is_printed(
    rt: &Host<impl Abort>,
    alloc: Global,
    row: usize,
    journal: &Journal<u32, u32>,
    wanted: &str,
) {
    let text = trace(rt, alloc, journal);
    same(
        rt,
        "the row and its trace",
        &(row, text.as_slice()),
        &(row, wanted.as_bytes()),
    );
    drop(text);
}

/// Looks that what a call came to is the answer that is wanted of its row.
fn is_answer(rt: &impl Abort, row: usize, given: &Given, wanted: Answered) {
    let is_wanted = given.is(&wanted);
    drop(wanted);
    shows(rt, row, "the answer", is_wanted);
}

/// Looks that what a call came to is what is wanted of its row.
pub fn agrees(rt: &Host<impl Abort>, alloc: Global, past: &Past<'_>, given: &Given, row: &Row) {
    match (given, row) {
        (Given::Look(look), Row::Looks(_, sight)) => is_sight(rt, past, look, sight),
        (Given::Journal(journal), Row::Copies(label, from)) => {
            is_copy(rt, past, journal, label, *from);
        }
        (Given::Journal(journal), Row::HandsOut(label, from, numbers)) => {
            is_journal(rt, past, journal, label, *from);
            are_numbered(rt, past.done, journal.entries.as_slice(), numbers);
        }
        (Given::Journal(journal), Row::Prints(_, text)) => {
            is_printed(rt, alloc, past.done, journal, text);
        }
        _ => is_answer(rt, past.done, given, row.answer(past.id)),
    }
}
