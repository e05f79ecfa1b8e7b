//! Why the program ends before its input does.

use st_core::Refusal;
use std::alloc::AllocError;
use std::fmt::{self, Display, Formatter, Write};
use std::io;

/// Why the program ends before its input does.
#[derive(Debug, Drop)]
pub enum Fault {
    /// A read or a write failed.
    Stream(io::Error),
    /// The machine refused a command, or there is no memory.
    Refused(Refusal),
}

impl Display for Fault {
    fn fmt<W: Write>(&self, f: &mut Formatter<W>) -> fmt::Result {
        match self {
            Fault::Stream(error) => write!(f, "{error}"),
            Fault::Refused(refusal) => write!(f, "{refusal}"),
        }
    }
}

impl From<io::Error> for Fault {
    fn from(error: io::Error) -> Fault {
        Fault::Stream(error)
    }
}

impl From<Refusal> for Fault {
    fn from(refusal: Refusal) -> Fault {
        Fault::Refused(refusal)
    }
}

impl From<AllocError> for Fault {
    fn from(error: AllocError) -> Fault {
        Fault::Refused(Refusal::from(error))
    }
}
