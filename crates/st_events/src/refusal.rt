//! Why a call is refused.
ghost use Rattle.std.specs.Prelude.{◌≡◌};
ghost use Rattle.st_events.specs.Refusal.{number_of};
ghost use Rattle.st_events.specs.declared.refusal.Refusal.TheVariants.{NoMemory};

use crate::{MachineId, Reason};
use std::alloc::{AllocError, AllocFailed};
use std::error::Error;
use std::fmt::{self, Display, Formatter, Write};

/// Why a call was refused. A refused call changes nothing, and gives back what it took.
///
/// Ours: docs/TRANSITIONS.md, Refusals.
#[derive(Clone, Copy, Debug, PartialEq, Eq)]
pub enum Refusal {
    /// Memory was wanted and there was none.
    NoMemory,
    /// The machine has ended, for this reason.
    Stopped(Reason),
    /// A counter has too few numbers left.
    Exhausted,
    /// The moment is 2^63 milliseconds or more.
    Moment,
    /// The step of a pool is not possible: the machine, worker or run queue that it names is not there, or the
    /// token is not where it would be taken from.
    NotPossible,
    /// The token is not the machine's outstanding one.
    NotQueued,
    /// The name is taken by this machine.
    AlreadyStarted(MachineId),
    /// The name is not registered.
    NoSuchName,
    /// The id names no machine now.
    NoSuchMachine,
    /// The machine has not ended, so it is not removed.
    NotStopped,
    /// There are as many machines as there may be.
    Full,
    /// The name is empty, or too long.
    BadName,
}

impl Refusal {
    /// The refusal's number, by which scripts report it.
    ///
    /// Ours: docs/TRANSITIONS.md, Refusals.
    pub fn number(&self) -> u8
        ensures { result ≡ number_of self.now }
    {
        match self {
            Refusal::NoMemory => 1,
            Refusal::Stopped(_) => 2,
            Refusal::Exhausted => 3,
            Refusal::Moment => 4,
            Refusal::NotPossible => 5,
            Refusal::NotQueued => 6,
            Refusal::AlreadyStarted(_) => 7,
            Refusal::NoSuchName => 8,
            Refusal::NoSuchMachine => 9,
            Refusal::NotStopped => 10,
            Refusal::Full => 11,
            Refusal::BadName => 12,
        }
    }

    /// What it is shown as.
    fn text(&self) -> &'static str {
        match self {
            Refusal::NoMemory => "no memory",
            Refusal::Stopped(_) => "stopped",
            Refusal::Exhausted => "too few numbers left",
            Refusal::Moment => "moment out of range",
            Refusal::NotPossible => "not possible",
            Refusal::NotQueued => "token not outstanding",
            Refusal::AlreadyStarted(_) => "name already taken",
            Refusal::NoSuchName => "no such name",
            Refusal::NoSuchMachine => "no such machine",
            Refusal::NotStopped => "not stopped",
            Refusal::Full => "table full",
            Refusal::BadName => "bad name",
        }
    }
}

impl Display for Refusal {
    fn fmt<W: Write>(&self, f: &mut Formatter<W>) -> fmt::Result {
        let text = self.text();
        match self {
            Refusal::Stopped(reason) => write!(f, "{text} with reason {reason}"),
            _ => f.write_str(text),
        }
    }
}

impl Error for Refusal {}

/// Want of memory is told as `NoMemory`, so that `?` turns it into a refusal.
impl From<AllocError> for Refusal {
    ghost from_gives = { λ _ refusal. refusal ≡ NoMemory };

    fn from(_cause: AllocError) -> Refusal {
        Refusal::NoMemory
    }
}

/// So is want of memory at a call that gives back what it took; the value is let go.
impl<T: Drop> From<AllocFailed<T>> for Refusal {
    ghost from_gives = { λ _ refusal. refusal ≡ NoMemory };

    fn from(cause: AllocFailed<T>) -> Refusal {
        Refusal::from(AllocError::from(cause))
    }
}
