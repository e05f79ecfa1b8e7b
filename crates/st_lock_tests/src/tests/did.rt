//! What a turn is to do.
use super::shows::shows;
use st_core::{Call, Decision, Done, Kind, Report, Tag, Time, Timer};
use std::process::Abort;

/// The event that a turn is to handle: its number and its kind.
pub type Handled = (u64, Kind);

/// What a turn is to do in the state 0: how it ends, the requests that are answered, the events that are inserted, the
/// timers that are set, and the messages that are sent.
#[derive(Clone, Copy)]
pub struct Did {
    pub done: Done,
    pub replied: &'static [Tag],
    pub inserted: &'static [u64],
    pub set: &'static [(Timer, Decision)],
    pub sent: &'static [u64],
}

/// The event is finished, and nothing else is done.
pub const FINISHED: Did = Did {
    done: Done::Finished,
    replied: &[],
    inserted: &[],
    set: &[],
    sent: &[],
};

/// The state time-out is set for 5.
pub const SET: Did = Did {
    set: &[(Timer::State, Decision::Set(Time::After(5)))],
    ..FINISHED
};

/// The first message is sent.
pub const SENT: Did = Did {
    sent: &[1],
    ..FINISHED
};

/// The first two messages are sent.
pub const SENT_TWO: Did = Did {
    sent: &[1, 2],
    ..FINISHED
};

/// The event is postponed.
pub const PUT_OFF: Did = Did {
    done: Done::PutOff,
    ..FINISHED
};

/// The machine ends for the reason 9, with the word 7.
pub const ENDED: Did = Did {
    done: Done::Ended(9, 7),
    ..FINISHED
};

/// The end of a machine for the reason 9, with the word 7.
const TERMINATE: Call<u32> = Call::Terminate {
    reason: 9,
    state: 0,
    word: 7,
};

/// Looks that these callbacks were made.
fn calls_are(rt: &impl Abort, row: usize, report: &Report<u32>, calls: &[Call<u32>]) {
    shows(rt, row, "how many calls", report.calls.len() == calls.len());
    for place in 0..calls.len() {
        let stands = report.calls.get(place) == calls.get(place);
        shows(rt, row, "the calls", stands);
    }
}

/// Looks that the event was handled in the state 0, and that the machine ended where it was to end.
fn are_called(rt: &impl Abort, row: usize, report: &Report<u32>, handled: Handled, done: Done) {
    let (number, kind) = handled;
    let handle = Call::Handle {
        number,
        kind,
        state: 0,
    };
    match done {
        Done::Ended(_, _) => calls_are(rt, row, report, [handle, TERMINATE].as_slice()),
        _ => calls_are(rt, row, report, [handle].as_slice()),
    }
}

/// Looks that a report says what is wanted of a row, and no more.
pub fn reports(rt: &impl Abort, row: usize, report: &Report<u32>, handled: Handled, did: &Did) {
    shows(rt, row, "the event", report.event == Some(handled.0));
    shows(rt, row, "how the turn ends", report.done == did.done);
    are_called(rt, row, report, handled, did.done);
    shows(rt, row, "the state before", report.before == 0);
    shows(rt, row, "the state after", report.after == 0);
    let replied = report.replied.as_slice() == did.replied;
    shows(rt, row, "the requests that are answered", replied);
    let inserted = report.inserted.as_slice() == did.inserted;
    shows(rt, row, "the events that are inserted", inserted);
    let set = report.set.as_slice() == did.set;
    shows(rt, row, "the timers that are set", set);
    let sent = report.sent.as_slice() == did.sent;
    shows(rt, row, "the messages that are sent", sent);
}
