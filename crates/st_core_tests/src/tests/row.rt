//! Rows of a test: what a machine is told, and what it is to answer.
use super::answers::{did_more, handled};
use super::shown::{Shown, Taken};
use super::told::{ID, Told};
use st_core::{Kind, MachineId, Reason, Tag, Time, Timer};
use std::alloc::AllocError;

/// What a turn does besides: each is one more, in the order of the report.
#[derive(Copy)]
pub enum More {
    /// The state that it leads to is entered.
    Enters,
    /// The machine ends, for this reason and with this last word.
    Ends(Reason, u32),
    /// The event is postponed.
    PutsOff,
    /// An event with this number is inserted.
    Inserts(u64),
    /// A timer is set or stopped.
    Sets(Timer, Time),
    /// A timer is cancelled.
    Cancels(Timer),
    /// A timer is updated.
    Updates(Timer),
    /// A request is answered.
    Replies(Tag),
    /// A message with this number is sent.
    Sends(u64),
}

impl Clone for More {
    fn clone(&self) -> Result<More, AllocError> {
        Ok(*self)
    }
}

/// A command, and what it is to answer.
#[derive(Copy)]
pub enum Row {
    /// Any command, and its answer.
    Tells(Told, Shown),
    /// A turn at a moment. It handles the event of a number and a kind in a state, finishes it, and leads to a state;
    /// and what it does besides.
    Turns(u64, u64, Kind, u32, u32, &'static [More]),
    /// A message is taken out. It has a number, a target and a content, and the machine is its sender.
    Takes(u64, MachineId, u32),
}

impl Clone for Row {
    fn clone(&self) -> Result<Row, AllocError> {
        Ok(*self)
    }
}

impl Row {
    /// The command.
    pub fn told(&self) -> Told {
        match self {
            Row::Tells(told, _) => *told,
            Row::Turns(now, _, _, _, _, _) => Told::Turn(*now),
            Row::Takes(_, _, _) => Told::TakeOut,
        }
    }

    /// Its answer.
    pub fn wanted(&self) -> Shown {
        match self {
            Row::Tells(_, shown) => *shown,
            Row::Turns(_, number, kind, before, after, more) => {
                Shown::Reported(did_more(handled(*number, *kind, *before, *after), more))
            }
            Row::Takes(number, target, content) => {
                Shown::TakenOut(Some(Taken {
                    sender: ID,
                    number: *number,
                    target: *target,
                    content: *content,
                }))
            }
        }
    }
}
