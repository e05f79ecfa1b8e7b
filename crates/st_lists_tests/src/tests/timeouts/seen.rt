//! What can be read of time-outs, and that a refused call leaves it as it was.
ghost use Rattle.std.specs.Prelude.{◌≤◌};

use crate::tests::host::{Host, got, holds};
use st_events::{CopyContent, PlainList, Timer};
use st_steps::Steps;
use st_timeouts::{Due, Running, Timeouts};
use std::alloc::{AllocError, Global};
use std::process::Abort;
use std::sync::ledger::Ledger;

/// All that can be read of time-outs without a change to them, of up to eight with their contents.
#[derive(Drop, PartialEq)]
struct Seen {
    list: PlainList<(Timer, u64, Due)>,
    contents: [Option<char>; 8],
    first_zero: Option<(Timer, u64)>,
    next_due: Option<u64>,
    due: [usize; 3],
}

/// The list. Where it finds no memory, it is asked for again.
pub fn listed(rt: &Host<impl Abort>, timeouts: &Timeouts<char>) -> PlainList<(Timer, u64, Due)> {
    if let Ok(list) = timeouts.list() {
        return list;
    }
    rt.retry();
    got(rt, "one allocation alone is refused", timeouts.list())
}

/// Copies letters.
#[derive(Drop)]
struct Letters;

impl CopyContent<char> for Letters {
    fn copy_of(&self, _alloc: Global, content: &char) -> Result<char, AllocError> {
        Ok(*content)
    }
}

/// A copy. Where it finds no memory, it is made again.
pub fn copied(rt: &Host<impl Abort>, timeouts: &Timeouts<char>) -> PlainList<Running<char>> {
    if let Ok(copy) = timeouts.copy(&Letters) {
        return copy;
    }
    rt.retry();
    let copy = timeouts.copy(&Letters);
    got(rt, "one allocation alone is refused", copy)
}

/// The contents of the time-outs of a list.
fn contents_of(
    rt: &impl Abort,
    timeouts: &Timeouts<char>,
    list: &[(Timer, u64, Due)],
) -> [Option<char>; 8] {
    let mut contents = [None; 8];
    for (content, (timer, number, _)) in contents.iter_mut().zip(list) {
        holds(rt, "what is listed runs", timeouts.is_live(*timer, *number));
        *content = timeouts.content(*timer, *number).copied();
    }
    contents
}

fn readable<L: Ledger>(
    rt: &Host<impl Abort>,
    timeouts: &Timeouts<char>,
    steps: &mut Steps<L>,
) -> Seen {
    let list = listed(rt, timeouts);
    let contents = contents_of(rt, timeouts, list.as_slice());
    Seen {
        list,
        contents,
        first_zero: timeouts.first_zero(),
        next_due: timeouts.next_due(),
        due: [
            timeouts.count_due(0, steps),
            timeouts.count_due(20, steps),
            timeouts.count_due(u64::MAX, steps),
        ],
    }
}

/// Looks that all is as it was, before a call that was refused, and that is made again.
fn unchanged<L: Ledger>(
    rt: &Host<impl Abort>,
    timeouts: &Timeouts<char>,
    before: &Seen,
    steps: &mut Steps<L>,
) {
    let after = readable(rt, timeouts, steps);
    holds(rt, "a refused call changes nothing", after == *before);
    rt.retry();
}

/// Reserves for so many. A call that finds no memory changes nothing that can be read, and is made again.
pub fn reserve_for<L: Ledger>(
    rt: &Host<impl Abort>,
    timeouts: &mut Timeouts<char>,
    count: usize,
    steps: &mut Steps<L>,
)
    ensures { count ≤ timeouts.new.reserved }
{
    let before = readable(rt, timeouts, steps);
    if timeouts.reserve(count).is_err() {
        unchanged(rt, timeouts, &before, steps);
        got(
            rt,
            "one allocation alone is refused",
            timeouts.reserve(count),
        );
    }
}
