//! A cell is told commands, and hands out what its journal says of them.

use super::super::asked::{Answered, Asked, Given};
use super::super::host::{Host, holds, same};
use super::super::kept::Kept;
use super::super::played::asks;
use st_core::PlainList;
use st_replay::JournalEntry;
use std::process::Abort;

/// What a journal holds.
pub type Line = JournalEntry<u32, u32>;

/// Opens the first port of a cell. Where it finds no memory, it is opened again.
pub fn opens<T: Kept>(rt: &Host<impl Abort>, cell: &mut T) {
    let given = asks(rt, cell, Asked::Port);
    let is_open = given.is(&Answered::Port(Ok(1)));
    drop(given);
    holds(rt, "the port is open", is_open);
}

/// Tells a cell a command. What finds no memory is told again.
fn tells<T: Kept>(rt: &Host<impl Abort>, cell: &mut T, asked: Asked) {
    let given = asks(rt, cell, asked);
    let is_told = given.is_done();
    drop(given);
    holds(rt, "it is told", is_told);
}

/// The entries of a cell, which are handed out. Where that finds no memory, it is asked again.
fn handed_out<T: Kept>(rt: &Host<impl Abort>, cell: &mut T) -> PlainList<Line> {
    match asks(rt, cell, Asked::HandOut("plain")) {
        Given::Journal(journal) => journal.entries,
        other => {
            drop(other);
            panic!(rt; "one allocation alone is refused")
        }
    }
}

/// The entries of commands that a cell is told.
pub fn journal_of<T: Kept>(
    rt: &Host<impl Abort>,
    cell: &mut T,
    commands: &[Asked],
) -> PlainList<Line> {
    for asked in commands {
        tells(rt, cell, *asked);
    }
    let entries = handed_out(rt, cell);
    same(
        rt,
        "each command has its entry",
        &entries.len(),
        &commands.len(),
    );
    entries
}
