//! Rows one after another over a cell, beside a machine that is told what its journal says.
use super::asked::Given;
use super::begun::{AT_FIRST, Begin, begun};
use super::compared::{agrees, are_lines};
use super::host::{Host, holds};
use super::kept::Kept;
use super::past::Past;
use super::plain::Plain;
use super::played::{asks_again, asks_once, parted};
use super::row::Row;
use super::shows::shows;
use super::twin::{snapshot_of, tells};
use st_core::MachineState;
use st_lock::Cell;
use std::alloc::Global;
use std::process::Abort;

/// Looks that a cell's journal is what it is to be, over this base.
fn is_kept<T: Kept>(
    rt: &impl Abort,
    cell: &T,
    past: &Past<'_>,
    base: &MachineState<u32, u32, u32>,
) {
    are_lines(rt, cell.read_entries(), past);
    let is_base = *cell.read_base() == *base;
    shows(rt, past.done, "the base before it", is_base);
    if let Some(last) = cell.read_entries().last() {
        let is_count = cell.see().counts(last.number);
        shows(rt, past.done, "the count before it", is_count);
    }
}

/// Looks that the base of a cell is at this moment.
fn is_based<T: Kept>(rt: &impl Abort, row: usize, cell: &T, moment: u64) {
    let is_then = cell.read_base().latest == moment;
    shows(rt, row, "the base's moment", is_then);
}

/// Looks at what a call came to of which a cell shows more than its answer: the moment of its base, and of a copy that
/// it is the whole journal.
fn agrees_with_cell<T: Kept>(rt: &impl Abort, row: usize, cell: &T, given: &Given, wanted: &Row) {
    match (given, wanted) {
        (Given::Journal(journal), Row::Copies(_, from)) => {
            is_based(rt, row, cell, *from);
            let is_whole = journal.entries.as_slice() == cell.read_entries();
            shows(rt, row, "the whole journal", is_whole);
        }
        (_, Row::Counts(_, from)) => is_based(rt, row, cell, *from),
        _ => {}
    }
}

/// Makes the call of a row, and looks at its answer. Where it is refused, nothing that can be read has changed.
fn does<T: Kept>(
    rt: &Host<impl Abort>,
    alloc: Global,
    cell: &mut T,
    row: &Row,
    past: &Past<'_>,
    base: &MachineState<u32, u32, u32>,
) {
    let given = asks_once(rt, cell, row, past.done);
    if given.refusal().is_some() {
        is_kept(rt, cell, past, base);
    }
    let given = asks_again(rt, cell, row, past, given);
    agrees(rt, alloc, past, &given, row);
    agrees_with_cell(rt, past.done, cell, &given, row);
    drop(given);
}

/// The journal is told to the twin, which answers what the journal says, and is cut or handed out. The base is what the
/// twin is then, and nothing else changes.
fn ends<T: Kept>(
    rt: &Host<impl Abort>,
    alloc: Global,
    cell: &mut T,
    twin: &mut T::Machine,
    end: &Row,
    past: &Past<'_>,
    base: &MachineState<u32, u32, u32>,
) {
    tells(rt, twin, cell.read_entries());
    let before = cell.see();
    does(rt, alloc, cell, end, past, base);
    let now = snapshot_of(rt, twin);
    holds(rt, "a cut changes nothing else", cell.see() == before);
    let is_empty = cell.read_entries().is_empty();
    holds(rt, "the journal is empty behind a cut", is_empty);
    let is_twin = *cell.read_base() == now;
    holds(rt, "the base is the twin behind a cut", is_twin);
    drop(now);
}

/// Makes calls one after another of a cell whose journal is empty, and looks at their answers, and at the whole journal
/// and the base before each call and after the last one. Then the journal is cut, or is handed out. The twin is what
/// the cell's machine was before the first call, and becomes what it is after the last one.
fn plays<T: Kept>(
    rt: &Host<impl Abort>,
    alloc: Global,
    cell: &mut T,
    twin: &mut T::Machine,
    begin: &Begin,
    rows: &'static [Row],
) {
    let (rows, end) = parted(rows);
    let base = snapshot_of(rt, twin);
    for (done, row) in rows.iter().enumerate() {
        let past = Past {
            id: begin.id,
            keeps: true,
            rows,
            done,
        };
        is_kept(rt, cell, &past, &base);
        does(rt, alloc, cell, row, &past, &base);
    }
    let past = Past {
        id: begin.id,
        keeps: true,
        rows,
        done: rows.len(),
    };
    is_kept(rt, cell, &past, &base);
    ends(rt, alloc, cell, twin, &end, &past, &base);
    drop(base);
}

/// Plays lists of rows over a cell that has begun so; its journal is emptied behind each.
fn plays_lists<T: Kept>(
    rt: &Host<impl Abort>,
    alloc: Global,
    begin: &Begin,
    lists: &[&'static [Row]],
) {
    let (mut cell, mut twin): (T, T::Machine) = begun(rt, alloc, begin);
    for rows in lists {
        plays(rt, alloc, &mut cell, &mut twin, begin, rows);
    }
    drop(twin);
    drop(cell);
}

/// Plays lists of rows over a cell that has begun so; its journal is emptied behind each.
pub fn plays_from(rt: &Host<impl Abort>, alloc: Global, begin: &Begin, lists: &[&'static [Row]]) {
    plays_lists::<Cell<Plain>>(rt, alloc, begin, lists);
}

/// Plays lists of rows over a cell that has just begun; its journal is emptied behind each.
pub fn plays_at_first(rt: &Host<impl Abort>, alloc: Global, lists: &[&'static [Row]]) {
    plays_from(rt, alloc, &AT_FIRST, lists);
}
