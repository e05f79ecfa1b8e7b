//! Why a script ends before its end.
ghost use Rattle.std.specs.Prelude.{◌≡◌};
ghost use Rattle.st_doors.specs.ScriptFault.{fault_of};
ghost use Rattle.st_doors.specs.declared.script_fault.ScriptFault.TheVariants.{Write, Memory};

use crate::failed::Failed;
use crate::input::InputFault;
use std::alloc::AllocError;
use thiserror::Error;

/// Why a script ended before its end.
#[derive(Clone, Copy, Debug, PartialEq, Eq, Error)]
pub enum ScriptFault {
    /// A read failed.
    #[error("read fault")]
    Read,
    /// The input has more than `INPUT_LIMIT` bytes.
    #[error("input too long")]
    TooLong,
    /// A write failed.
    #[error("write fault")]
    Write,
    /// Memory was wanted and there was none.
    #[error("no memory")]
    Memory,
}

impl From<InputFault> for ScriptFault {
    ghost from_gives = { λ cause fault. fault ≡ fault_of cause };

    fn from(cause: InputFault) -> ScriptFault {
        match cause {
            InputFault::Read => ScriptFault::Read,
            InputFault::TooLong => ScriptFault::TooLong,
            InputFault::Memory => ScriptFault::Memory,
        }
    }
}

impl From<Failed> for ScriptFault {
    ghost from_gives = { λ _ fault. fault ≡ Write };

    fn from(_cause: Failed) -> ScriptFault {
        ScriptFault::Write
    }
}

impl From<AllocError> for ScriptFault {
    ghost from_gives = { λ _ fault. fault ≡ Memory };

    fn from(_cause: AllocError) -> ScriptFault {
        ScriptFault::Memory
    }
}
