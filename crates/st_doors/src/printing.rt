//! What is printed.
ghost use Rattle.std.specs.Prelude.{◌≡◌, IfOk, string_bytes};
ghost use Rattle.st_doors.specs.Printing.{state_name_of, status_text, ended_text, removed_text, expired_text, length_text};

use crate::DoorState;
use st_events::Reason;
use std::alloc::{AllocError, Global};

/// The name of a state.
pub(crate) fn state_name(state: DoorState) -> &'static str
    ensures { result.now ≡ state_name_of state }
{
    match state {
        DoorState::Locked => "locked",
        DoorState::Open => "open",
    }
}

/// The status of a door that runs, by its parts.
pub fn status(
    alloc: Global,
    name: &str,
    state: DoorState,
    buttons: usize,
    waiting: usize,
) -> Result<String, AllocError>
    ensures { IfOk result (λ text. string_bytes text ≡ status_text name.now state buttons waiting) }
{
    let state = state_name(state);
    format!(in alloc; "{name} {state} buttons {buttons} waiting {waiting}\n")
}

/// The status of a door that has ended, by its parts.
pub fn ended_status(
    alloc: Global,
    name: &str,
    reason: Reason,
    word: u32,
) -> Result<String, AllocError>
    ensures { IfOk result (λ text. string_bytes text ≡ ended_text name.now reason word) }
{
    format!(in alloc; "{name} stopped {reason} word {word}\n")
}

/// That the door of a name was removed.
pub fn removed(alloc: Global, name: &str) -> Result<String, AllocError>
    ensures { IfOk result (λ text. string_bytes text ≡ removed_text name.now) }
{
    format!(in alloc; "{name} removed\n")
}

/// Which moment it is, and how many time-outs expired.
pub fn expired(alloc: Global, moment: u64, count: u128) -> Result<String, AllocError>
    ensures { IfOk result (λ text. string_bytes text ≡ expired_text moment count) }
{
    format!(in alloc; "at {moment} expired {count}\n")
}

/// How long the code of the door of a name is, or a hyphen where that was not said.
pub fn code_length(alloc: Global, name: &str, digits: Option<usize>) -> Result<String, AllocError>
    ensures { IfOk result (λ text. string_bytes text ≡ length_text name.now digits) }
{
    match digits {
        Some(digits) => format!(in alloc; "{name} length {digits}\n"),
        None => format!(in alloc; "{name} length -\n"),
    }
}
