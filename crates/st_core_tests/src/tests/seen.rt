//! What can be read of a machine.
use super::few::Few;
use super::host::{Host, same};
use st_core::{Due, Reason, Timer};
use std::alloc::AllocError;
use std::process::Abort;

/// What can be read of a machine but its replies and time-outs.
#[derive(Copy, Debug, PartialEq, Eq)]
pub struct Seen {
    pub is_ready: bool,
    pub has_event: bool,
    pub has_message: bool,
    pub state: u32,
    pub held: u32,
    pub latest: u64,
    pub waiting: usize,
    pub ended: Option<(Reason, u32)>,
}

impl Clone for Seen {
    fn clone(&self) -> Result<Seen, AllocError> {
        Ok(*self)
    }
}

/// The replies that are kept for the first four requests, where there are some.
#[derive(Copy, Debug, PartialEq, Eq)]
pub struct Kept {
    pub first: Option<u32>,
    pub second: Option<u32>,
    pub third: Option<u32>,
    pub fourth: Option<u32>,
}

impl Clone for Kept {
    fn clone(&self) -> Result<Kept, AllocError> {
        Ok(*self)
    }
}

impl Kept {
    /// No reply is kept.
    pub fn none() -> Kept {
        Kept {
            first: None,
            second: None,
            third: None,
            fourth: None,
        }
    }
}

/// A time-out that runs: its timer, the number of its event, and when it is due.
pub type Running = (Timer, u64, Due);

/// All that can be read of a machine.
#[derive(Copy, Debug, PartialEq, Eq)]
pub struct Whole {
    pub seen: Seen,
    pub kept: Kept,
    pub timers: Few<Running>,
}

impl Clone for Whole {
    fn clone(&self) -> Result<Whole, AllocError> {
        Ok(*self)
    }
}

/// Looks that all is the same that can be read of a machine.
pub fn is_all(rt: &Host<impl Abort>, whole: &Whole, wanted: &Whole) {
    same(rt, "all that can be read", whole, wanted);
}

/// Looks that commands end as is wanted, with these time-outs.
pub fn ends(rt: &Host<impl Abort>, whole: &Whole, seen: &Seen, timers: &[Running]) {
    sees(rt, &whole.seen, seen);
    same(
        rt,
        "the time-outs that run",
        &whole.timers,
        &Few::of(timers),
    );
}

/// Looks that a machine is seen as is wanted.
pub fn sees(rt: &Host<impl Abort>, seen: &Seen, wanted: &Seen) {
    same(rt, "what is seen", seen, wanted);
}

/// Looks that the replies that are kept are those that are wanted.
pub fn keeps(rt: &Host<impl Abort>, kept: &Kept, wanted: &Kept) {
    same(rt, "the replies that are kept", kept, wanted);
}
