//! Answers are compared with those that entries tell.
ghost use Rattle.std.specs.Prelude.{◌≡◌, is_err, IfOk};
ghost use Rattle.st_replay.specs.Replay.{found_no_memory};

use st_core::{Answer, Refusal, Refused};
use std::alloc::AllocError;

/// Whether an answer says that memory was wanted and there was none.
fn found_no_memory<S, C>(answer: &Answer<S, C>) -> bool
    ensures { result ≡ found_no_memory answer.now }
{
    match answer {
        Answer::Post(
            Err(
                Refused {
                    refusal: Refusal::NoMemory,
                    ..
                },
            ),
        ) => true,
        Answer::Tick(Err(Refusal::NoMemory)) => true,
        Answer::Turn(Err(Refusal::NoMemory)) => true,
        Answer::Stop(Err(Refusal::NoMemory)) => true,
        _ => false,
    }
}

/// Says whether an answer is the one that an entry tells. One that says that there was no memory is not compared: it may
/// be no answer of the machine's definition.
pub(crate) fn compared<S: PartialEq, C: PartialEq>(
    answer: &Answer<S, C>,
    told: &Answer<S, C>,
) -> Result<bool, AllocError>
    ensures same { IfOk result (λ same. same ≡ ⟦<Answer<S, C> as PartialEq>⟧.eq answer.now told.now) }
    ensures refusals { is_err result ≡ found_no_memory answer.now }
{
    if found_no_memory(answer) {
        return Err(AllocError);
    }
    Ok(answer == told)
}
