//! What a step is to answer.
use super::shows::shows;
use st_core::{Call, Collected, Done, Kind, Refusal, Refused, Report};
use st_events::Token;
use st_pool_core::StepAnswer;
use std::process::Abort;

/// What a step is to answer.
#[derive(Drop)]
pub enum Shown {
    /// A post is accepted: its event gets this number, and this token is issued.
    Posted(u64, Option<Token>),
    /// So many time-outs expire, and this token is issued.
    Ticked(u64, Option<Token>),
    /// The token is moved.
    Moved,
    /// A token is retired without a turn.
    Rested,
    /// A machine is stopped, and 7 is its last word.
    Stopped,
    /// Whether a reply is taken.
    Replied(bool),
    /// What a collect hands out.
    Collected(Collected<u32>),
    /// A message is lost, for this reason.
    Lost(Refusal),
    /// A step is refused for this reason, with the content that it held.
    Refused(Refusal, Option<u32>),
    /// A turn handles the event of this number and kind in the state 0, and finishes it.
    Handled(u64, Kind),
    /// A turn handles the event of this number and kind in the state 0, finishes it, and sends so many messages, which
    /// are the machine's first.
    Sent(u64, Kind, u64),
    /// A turn handles the event of this number and kind in the state 0, and the machine ends for the reason 9, with
    /// the word 7.
    Ended(u64, Kind),
}

/// A step is not possible, and holds no content.
pub const NOT_POSSIBLE: Shown = Shown::Refused(Refusal::NotPossible, None);

/// An answer that refuses a step, with the content that it held.
pub fn refusing(refusal: Refusal, content: Option<u32>) -> StepAnswer<u32, u32> {
    StepAnswer::Refused(Refused::new(refusal, content))
}

/// The same that is collected.
fn copy_of(collected: &Collected<u32>) -> Collected<u32> {
    match collected {
        Collected::Waiting => Collected::Waiting,
        Collected::Reply(content) => Collected::Reply(*content),
        Collected::Stopped(reason) => Collected::Stopped(*reason),
        Collected::Gone => Collected::Gone,
    }
}

/// The answer that is wanted, where it is no turn's.
fn answer_of(wanted: &Shown) -> Option<StepAnswer<u32, u32>> {
    match wanted {
        Shown::Posted(number, wake) => Some(StepAnswer::Posted {
            number: *number,
            wake: *wake,
        }),
        Shown::Ticked(expired, wake) => Some(StepAnswer::Ticked {
            expired: *expired,
            wake: *wake,
        }),
        Shown::Moved => Some(StepAnswer::Moved),
        Shown::Rested => Some(StepAnswer::Rested),
        Shown::Stopped => Some(StepAnswer::Stopped(7)),
        Shown::Replied(taken) => Some(StepAnswer::Replied(*taken)),
        Shown::Collected(collected) => Some(StepAnswer::Collected(copy_of(collected))),
        Shown::Lost(refusal) => Some(StepAnswer::Lost(*refusal)),
        Shown::Refused(refusal, content) => Some(refusing(*refusal, *content)),
        Shown::Handled(_, _) | Shown::Sent(_, _, _) | Shown::Ended(_, _) => None,
    }
}

/// Looks that a report has these calls.
fn are_calls(rt: &impl Abort, row: usize, report: &Report<u32>, calls: &[Call<u32>]) {
    for place in 0..calls.len() {
        let stands = report.calls.get(place) == calls.get(place);
        shows(rt, row, "the calls", stands);
    }
}

/// Looks that a report says what is wanted of a row.
fn reports(
    rt: &impl Abort,
    row: usize,
    report: &Report<u32>,
    number: u64,
    done: Done,
    calls: &[Call<u32>],
) {
    shows(rt, row, "the event", report.event == Some(number));
    shows(rt, row, "how the turn ends", report.done == done);
    shows(rt, row, "how many calls", report.calls.len() == calls.len());
    are_calls(rt, row, report, calls);
}

/// Looks that messages are numbered from 1 on.
fn are_numbered(rt: &impl Abort, row: usize, sent: &[u64]) {
    for (place, number) in sent.iter().enumerate() {
        let is_next = *number == (place as u64).saturating_add(1);
        shows(rt, row, "a message's number", is_next);
    }
}

/// Looks that a report lists so many messages, which are the machine's first.
fn lists(rt: &impl Abort, row: usize, report: &Report<u32>, count: u64) {
    let sent = report.sent.as_slice();
    let is_counted = sent.len() as u64 == count;
    shows(rt, row, "how many messages are sent", is_counted);
    are_numbered(rt, row, sent);
}

/// Looks that an answer is the one that is wanted of a row.
pub fn agrees(rt: &impl Abort, row: usize, answer: &StepAnswer<u32, u32>, wanted: &Shown) {
    match answer_of(wanted) {
        Some(other) => {
            shows(rt, row, "the answer", *answer == other);
            drop(other);
        }
        None => match answer {
            StepAnswer::Turned(report) => turned(rt, row, report, wanted),
            _ => shows(rt, row, "a turn with a report", false),
        },
    }
}

/// Looks that a turn's report is the one that is wanted of a row.
fn turned(rt: &impl Abort, row: usize, report: &Report<u32>, wanted: &Shown) {
    match wanted {
        Shown::Handled(number, kind) => handles(rt, row, report, (*number, *kind), 0),
        Shown::Sent(number, kind, count) => {
            handles(rt, row, report, (*number, *kind), *count);
        }
        Shown::Ended(number, kind) => ends(rt, row, report, (*number, *kind)),
        _ => shows(rt, row, "a turn with a report", false),
    }
}

/// Looks that a turn handles the event of this number and kind, and the machine ends for the reason 9, with the word 7.
fn ends(rt: &impl Abort, row: usize, report: &Report<u32>, (number, kind): (u64, Kind)) {
    let calls = [handle_of(number, kind), TERMINATE];
    let done = Done::Ended(9, 7);
    reports(rt, row, report, number, done, calls.as_slice());
}

/// Looks that a turn handles the event of this number and kind, finishes it, and sends so many messages.
fn handles(
    rt: &impl Abort,
    row: usize,
    report: &Report<u32>,
    (number, kind): (u64, Kind),
    count: u64,
) {
    let handle = handle_of(number, kind);
    reports(rt, row, report, number, Done::Finished, [handle].as_slice());
    lists(rt, row, report, count);
}

/// The end of a machine for the reason 9, with the word 7.
const TERMINATE: Call<u32> = Call::Terminate {
    reason: 9,
    state: 0,
    word: 7,
};

/// The event of this number and kind is handled in the state 0.
fn handle_of(number: u64, kind: Kind) -> Call<u32> {
    Call::Handle {
        number,
        kind,
        state: 0,
    }
}
