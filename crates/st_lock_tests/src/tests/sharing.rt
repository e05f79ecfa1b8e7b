//! Rows one after another over a machine that threads share.
use super::asked::{Asked, Given};
use super::begun::{AT_FIRST, ID, is_made_again, machine};
use super::compared::{agrees, are_lines};
use super::host::{Host, got, holds};
use super::past::Past;
use super::played::{Played, asks, asks_again, asks_once, parted};
use super::row::Row;
use super::shows::shows;
use super::twin::Twin;
use super::way::Way;
use st_core::{MachineId, Refused};
use st_events::Token;
use std::alloc::Global;
use std::process::Abort;

/// A machine that threads share, with its ports.
pub trait Sharing: Played {
    /// What is made of it before it is shared.
    type Machine: Twin;

    /// What it is before threads own it.
    type Locked: Drop;

    /// What its calls wait on.
    type Threads: Copy + Drop;

    /// Makes a machine, which keeps its journal or keeps none, and its token if it has work. Where there is no memory,
    /// what it is made of comes back.
    fn lock(
        alloc: Global,
        machine: Self::Machine,
        keeps: bool,
    ) -> Result<(Self::Locked, Option<Token>), Refused<Self::Machine>>;

    /// Has threads own it. Where there is no memory, it comes back.
    fn own(
        alloc: Global,
        threads: Self::Threads,
        locked: Self::Locked,
    ) -> Result<Self, Refused<Self::Locked>>;

    /// Fills a vacant machine: that one, its id, and its token if it has work. Where there is no memory, what it is
    /// filled with comes back.
    fn fill(
        alloc: Global,
        threads: Self::Threads,
        machine: Self::Machine,
        keeps: bool,
    ) -> Result<(Self, MachineId, Option<Token>), Refused<Self::Machine>>;
}

/// A machine that was made. Where memory was refused, what it is made of had come back, and it is made again.
fn made<S: Sharing>(rt: &Host<impl Abort>, alloc: Global, keeps: bool) -> S::Locked {
    let (locked, token) = match S::lock(alloc, machine(rt, alloc, &AT_FIRST), keeps) {
        Ok(made) => made,
        Err(refused) => {
            is_made_again(rt, refused.refusal);
            let again = S::lock(alloc, refused.value, keeps);
            got(rt, "one allocation alone is refused", again)
        }
    };
    holds(rt, "it has no work", token == None);
    locked
}

/// A machine that threads own. Where memory was refused, it had come back, and they are given it again.
fn owned<S: Sharing>(
    rt: &Host<impl Abort>,
    alloc: Global,
    threads: S::Threads,
    locked: S::Locked,
) -> S {
    match S::own(alloc, threads, locked) {
        Ok(shared) => shared,
        Err(refused) => {
            is_made_again(rt, refused.refusal);
            let again = S::own(alloc, threads, refused.value);
            got(rt, "one allocation alone is refused", again)
        }
    }
}

/// A machine that fills a vacant one. Where memory was refused, it had come back, and fills another vacant one that is
/// made anew.
fn filled<S: Sharing>(rt: &Host<impl Abort>, alloc: Global, threads: S::Threads, keeps: bool) -> S {
    let core = machine(rt, alloc, &AT_FIRST);
    let (shared, id, token) = match S::fill(alloc, threads, core, keeps) {
        Ok(filled) => filled,
        Err(refused) => {
            is_made_again(rt, refused.refusal);
            let again = S::fill(alloc, threads, refused.value, keeps);
            got(rt, "one allocation alone is refused", again)
        }
    };
    holds(rt, "it has no work", token == None);
    holds(rt, "it has the id of the vacant one", id == ID);
    shared
}

/// A machine that has just started, comes to be shared in this way, and has no port.
fn shared<S: Sharing>(rt: &Host<impl Abort>, alloc: Global, threads: S::Threads, way: Way) -> S {
    if way.fills {
        filled(rt, alloc, threads, way.keeps)
    } else {
        let locked = made::<S>(rt, alloc, way.keeps);
        owned(rt, alloc, threads, locked)
    }
}

/// Looks that the journal has the entries of the rows that were done, and no other; or none, where none is kept.
fn is_kept<T: Played>(rt: &Host<impl Abort>, shared: &mut T, past: &Past<'_>) {
    let given = asks(rt, shared, Asked::Journal("front"));
    match &given {
        Given::Journal(journal) => are_lines(rt, journal.entries.as_slice(), past),
        _ => shows(rt, past.done, "there is a journal", false),
    }
    drop(given);
}

/// Makes the call of a row, and looks at its answer. Where it is refused, nothing that can be read has changed.
fn does<T: Played>(
    rt: &Host<impl Abort>,
    alloc: Global,
    shared: &mut T,
    row: &Row,
    past: &Past<'_>,
) {
    let given = asks_once(rt, shared, row, past.done);
    if given.refusal().is_some() {
        is_kept(rt, shared, past);
    }
    let given = asks_again(rt, shared, row, past, given);
    agrees(rt, alloc, past, &given, row);
    drop(given);
}

/// Makes calls one after another of a machine whose journal is empty, and looks at their answers, and at the journal
/// behind the last one. Then the journal is cut, or is handed out.
fn plays<T: Played>(
    rt: &Host<impl Abort>,
    alloc: Global,
    shared: &mut T,
    keeps: bool,
    rows: &'static [Row],
) {
    let (rows, end) = parted(rows);
    for (done, row) in rows.iter().enumerate() {
        let past = Past {
            id: ID,
            keeps,
            rows,
            done,
        };
        does(rt, alloc, shared, row, &past);
    }
    let past = Past {
        id: ID,
        keeps,
        rows,
        done: rows.len(),
    };
    is_kept(rt, shared, &past);
    does(rt, alloc, shared, &end, &past);
    is_kept(rt, shared, &Past { done: 0, ..past });
}

/// Plays lists of rows over a machine that has just started; its journal is emptied behind each.
pub fn plays_lists<S: Sharing>(
    rt: &Host<impl Abort>,
    alloc: Global,
    threads: S::Threads,
    way: Way,
    lists: &[&'static [Row]],
) {
    let mut shared = shared::<S>(rt, alloc, threads, way);
    for rows in lists {
        plays(rt, alloc, &mut shared, way.keeps, rows);
    }
    drop(shared);
}
