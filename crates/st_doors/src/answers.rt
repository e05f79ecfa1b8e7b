//! What the answer to a command says of a door.
ghost use Rattle.std.specs.Prelude.{◌≡◌};
ghost use Rattle.st_doors.specs.Doors.{refusal_in, count_in, length_in};

use crate::{DoorContent, DoorState};
use st_core::{Answer, Collected};
use st_events::Refusal;

/// What a door answers to a command.
///
/// Ours: docs/SCRIPTS.md.
pub type DoorAnswer = Answer<DoorState, DoorContent>;

/// Why a command is refused, if it is.
fn refusal_in(answer: &DoorAnswer) -> Option<Refusal>
    ensures { result ≡ refusal_in answer.now }
{
    match answer {
        Answer::Post(Err(refused)) => Some(refused.refusal),
        Answer::Tick(Err(refusal)) => Some(*refusal),
        Answer::Turn(Err(refusal)) => Some(*refusal),
        Answer::Stop(Err(refusal)) => Some(*refusal),
        _ => None,
    }
}

/// How many time-outs expire at a command: none but a tick has any.
fn count_in(answer: &DoorAnswer) -> u64
    ensures { result ≡ count_in answer.now }
{
    match answer {
        Answer::Tick(Ok(count)) => *count,
        _ => 0,
    }
}

/// The length that a command brought, if it is a collect that brought one.
fn length_in(answer: &DoorAnswer) -> Option<usize>
    ensures { result ≡ length_in answer.now }
{
    match answer {
        Answer::Collect(Collected::Reply(DoorContent::Length(digits))) => Some(*digits),
        _ => None,
    }
}

/// What an answer says, without the answer.
///
/// Ours: docs/SCRIPTS.md.
#[derive(Drop)]
pub struct Said {
    /// Why the command is refused, if it is.
    pub refusal: Option<Refusal>,
    /// How many time-outs expire at it.
    pub expired: u64,
    /// The length that it brought, if it brought one.
    pub digits: Option<usize>,
}

/// Lets an answer go, and answers what it says.
///
/// Ours: docs/SCRIPTS.md.
pub fn let_go(answer: DoorAnswer) -> Said
    ensures refusal { result.refusal ≡ refusal_in answer }
    ensures expired { result.expired ≡ count_in answer }
    ensures digits { result.digits ≡ length_in answer }
{
    Said {
        refusal: refusal_in(&answer),
        expired: count_in(&answer),
        digits: length_in(&answer),
    }
}
