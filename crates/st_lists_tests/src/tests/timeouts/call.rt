//! Calls with the answers that are wanted, and what makes them.
ghost use Rattle.std.specs.Prelude.{◌≡◌, ◌<◌, ◌^◌};

use super::seen::{copied, listed, reserve_for};
use crate::tests::host::{Host, holds};
use st_events::Timer;
use st_steps::Steps;
use st_timeouts::{Due, Timeouts};
use std::alloc::Global;
use std::fmt::Debug;
use std::process::Abort;
use std::sync::ledger::{Blank, Ledger};

/// A call, and what it is to answer, which stands last.
#[derive(Clone, Copy)]
pub enum Call {
    /// Reserves for so many.
    Reserve(usize),
    /// Sets a timer, and reserves for it before.
    Set {
        timer: Timer,
        time: u32,
        content: char,
        number: u64,
        now: u64,
        returned: Option<char>,
    },
    /// Gives the time-out of a timer that runs this content. The old one comes back.
    Update(Timer, char, char),
    /// A time-out leaves, or its expiry is handed out.
    Takes(Takes),
    /// A look at what runs.
    Shows(Shows),
    /// All that run.
    List(&'static [(Timer, u64, Due)]),
    /// A copy of all that run, with their contents.
    Copy(&'static [(Timer, u64, Due, char)]),
}

/// A call that takes a time-out, and what it is to answer, which stands last.
#[derive(Clone, Copy)]
pub enum Takes {
    /// Stops a timer.
    Cancel(Timer, Option<char>),
    /// Takes the time-out out whose event has this number.
    Take(Timer, u64, Option<char>),
    /// The first expiry that is due by a moment.
    NextExpiry(u64, Option<(Timer, u64)>),
    /// The first expiry, whether its moment has come or not.
    TakeDue(Option<(Timer, u64)>),
}

/// A call that changes nothing, and what it is to answer, which stands last.
#[derive(Clone, Copy)]
pub enum Shows {
    /// The content of the time-out whose event has this number.
    Content(Timer, u64, Option<char>),
    /// Whether a timer runs.
    Runs(Timer, bool),
    /// Whether the time-out runs whose event has this number.
    IsLive(Timer, u64, bool),
    /// The first time-out that is due at once.
    FirstZero(Option<(Timer, u64)>),
    /// How many are due by a moment.
    CountDue(u64, usize),
    /// The moment of the next expiry.
    NextDue(Option<u64>),
}

/// Sets a timer, and reserves for it before.
pub fn set<L: Ledger>(
    rt: &Host<impl Abort>,
    timeouts: &mut Timeouts<char>,
    timer: Timer,
    time: u32,
    content: char,
    number: u64,
    now: u64,
    steps: &mut Steps<L>,
) -> Option<char>
    requires { now < 2 ^ 63 }
{
    reserve_for(rt, timeouts, 1, steps);
    timeouts.set(timer, time, content, number, now)
}

/// Looks that the call at this place of a row answers as is wanted. The first place is 0.
fn agree<T: PartialEq + Debug + Drop>(rt: &impl Abort, place: usize, answer: T, wanted: T) {
    assert_eq!(rt; answer, wanted, "at place {place} of the row");
}

/// Makes a call that takes a time-out, and looks at its answer.
fn take<L: Ledger>(
    rt: &impl Abort,
    timeouts: &mut Timeouts<char>,
    place: usize,
    call: Takes,
    steps: &mut Steps<L>,
) {
    match call {
        Takes::Cancel(timer, returned) => agree(rt, place, timeouts.cancel(timer), returned),
        Takes::Take(timer, number, returned) => {
            agree(rt, place, timeouts.take(timer, number), returned);
        }
        Takes::NextExpiry(now, wanted) => {
            agree(rt, place, timeouts.next_expiry(now, steps), wanted);
        }
        Takes::TakeDue(wanted) => agree(rt, place, timeouts.take_due(), wanted),
    }
}

/// Makes a call that changes nothing, and looks at its answer.
fn show<L: Ledger>(
    rt: &impl Abort,
    timeouts: &Timeouts<char>,
    place: usize,
    call: Shows,
    steps: &mut Steps<L>,
) {
    match call {
        Shows::Content(timer, number, wanted) => {
            agree(rt, place, timeouts.content(timer, number).copied(), wanted);
        }
        Shows::Runs(timer, wanted) => agree(rt, place, timeouts.runs(timer), wanted),
        Shows::IsLive(timer, number, wanted) => {
            agree(rt, place, timeouts.is_live(timer, number), wanted);
        }
        Shows::FirstZero(wanted) => agree(rt, place, timeouts.first_zero(), wanted),
        Shows::CountDue(now, wanted) => agree(rt, place, timeouts.count_due(now, steps), wanted),
        Shows::NextDue(wanted) => agree(rt, place, timeouts.next_due(), wanted),
    }
}

/// Copies all that run, and looks at the copy.
fn copies(
    rt: &Host<impl Abort>,
    timeouts: &Timeouts<char>,
    place: usize,
    wanted: &[(Timer, u64, Due, char)],
) {
    let copy = copied(rt, timeouts);
    agree(rt, place, copy.as_slice().len(), wanted.len());
    for (one, wanted) in copy.as_slice().iter().zip(wanted) {
        let found = (one.timer, one.number, one.due, one.content);
        agree(rt, place, found, *wanted);
    }
}

/// Makes the call at this place of a row, and looks at its answer.
fn make<L: Ledger>(
    rt: &Host<impl Abort>,
    timeouts: &mut Timeouts<char>,
    place: usize,
    call: Call,
    steps: &mut Steps<L>,
) {
    match call {
        Call::Reserve(count) => reserve_for(rt, timeouts, count, steps),
        Call::Set {
            timer,
            time,
            content,
            number,
            now,
            returned,
        } => {
            holds(rt, "the moment is in range", now < 1 << 63);
            let old = set(rt, timeouts, timer, time, content, number, now, steps);
            agree(rt, place, old, returned);
        }
        Call::Update(timer, content, old) => {
            holds(rt, "the timer runs", timeouts.runs(timer));
            agree(rt, place, timeouts.update(timer, content), old);
        }
        Call::Takes(call) => take(rt, timeouts, place, call, steps),
        Call::Shows(call) => show(rt, timeouts, place, call, steps),
        Call::List(wanted) => agree(rt, place, listed(rt, timeouts).as_slice(), wanted),
        Call::Copy(wanted) => copies(rt, timeouts, place, wanted),
    }
}

/// Makes the calls of a row one after the other, from no time-out on, and looks at their answers.
pub fn row_answers<L: Ledger>(rt: &Host<impl Abort>, alloc: Global, blank: Blank, row: &[Call])
    requires name { blank.name ≡ L.name }
    requires parts { blank.parts ≡ L.parts }
    requires some { 0 < blank.parts }
{
    let mut steps = Steps::<L>::new(blank);
    let mut timeouts = rt.boxed(alloc, Timeouts::new(alloc));
    for (place, call) in row.iter().enumerate() {
        make(rt, &mut timeouts, place, *call, &mut steps);
    }
}
