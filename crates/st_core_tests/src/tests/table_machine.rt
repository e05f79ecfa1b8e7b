//! A table's machine: how it begins, what is read of it, and how rows are played.
use super::begin::Begin;
use super::compared::both_ways;
use super::host::Host;
use super::row::Row;
use super::seen::{Running, Seen};
use super::table::Table;
use st_core::Core;
use std::alloc::Global;
use std::io::Print;
use std::process::Abort;

/// A table's machine at the moment 0.
pub const BEGIN: Begin<Table> = Begin {
    module: Table { number: 50 },
    arg: 0,
    now: 0,
    first: None,
    inserted: &[],
    set: &[],
    sent: &[],
};

/// The same, to be borrowed: a body that borrows the constant would build it.
pub static PLAIN: Begin<Table> = BEGIN;

/// What can be read of a table's machine that has only begun, at the moment 0, and has nothing to do.
pub const AT_REST: Seen = Seen {
    is_ready: false,
    has_event: false,
    has_message: false,
    state: 0,
    held: 7,
    latest: 0,
    waiting: 0,
    ended: None,
};

/// The same, to be borrowed.
pub static RESTING: Seen = AT_REST;

/// Looks at the answers to the commands of rows, and at what they leave, with no time-out that runs.
pub fn rows_agree(
    rt: &Host<impl Abort>,
    alloc: Global,
    begin: &Begin<Table>,
    rows: &[Row],
    end: &Seen,
) {
    both_ways::<Core<Table>>(rt, alloc, begin, rows, end, &[]);
}

/// A whole test: the answers to the commands of rows, and what they leave, with no time-out that runs.
pub fn answers_are<R: Abort + AllocGlobal + Print + Drop>(
    rt: R,
    begin: &Begin<Table>,
    rows: &[Row],
    end: &Seen,
) {
    timers_are(rt, begin, rows, end, &[]);
}

/// A whole test: the answers to the commands of rows, and what they leave, with the time-outs that run.
pub fn timers_are<R: Abort + AllocGlobal + Print + Drop>(
    rt: R,
    begin: &Begin<Table>,
    rows: &[Row],
    end: &Seen,
    timers: &[Running],
) {
    let rt = Host::new(rt);
    both_ways::<Core<Table>>(&rt, rt.alloc(), begin, rows, end, timers);
    rt.end();
}
