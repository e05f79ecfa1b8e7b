//! What a step of a pool, or a call of one machine, is answered.
ghost use Rattle.std.specs.Prelude.{◌≡◌, ◌↔◌, true, IfOk, IfErr};
ghost use Rattle.st_events.specs.declared.refusal.Refusal.TheVariants.{NoMemory};
ghost use Rattle.st_scheduled.specs.Serving.{refused_with};
ghost use Rattle.st_scheduled.specs.declared.step_answer.StepAnswer.TheVariants as said;
ghost use Rattle.st_scheduled.specs.Answered.{posted_as, ticked_as, served_as, replied_as, collected_as, stopped_as, taken_out_as};

use crate::{Posted, Served, Ticked};
use st_core::{Module, Report};
use st_events::{MachineId, Message, Refusal, Refused, Token};
use st_requests::Collected;

/// What a step is answered at a machine of this module.
pub type AnswerOf<M> = StepAnswer<<M as Module>::State, <M as Module>::Content>;

/// The answer to one step of a pool; a call of one machine has one of these too.
///
/// Ours: docs/DECISIONS.md, The pool's steps.
#[derive(Debug, PartialEq, Eq, Drop)]
pub enum StepAnswer<S, C> {
    /// The event's number, and the token that was issued, if one was: the caller has it.
    Posted { number: u64, wake: Option<Token> },
    /// How many time-outs expired, and the token that was issued, if one was: the caller has it.
    Ticked { expired: u64, wake: Option<Token> },
    /// The token is where the step takes it; or it stays with who serves the machine, which has no event for a turn, but a
    /// message to be taken out.
    Moved,
    /// What the turn did.
    Turned(Report<S>),
    /// The machine had no work, as where it has ended: its token was retired without a turn.
    Rested,
    /// The machine's last word.
    Stopped(u32),
    /// Whether the reply was taken.
    Replied(bool),
    /// What was collected.
    Collected(Collected<C>),
    /// Why the step was refused, with the content that it held. Nothing changed.
    Refused(Refused<Option<C>>),
    /// The message that was taken out of the machine, if there was one.
    TakenOut(Option<Message<C>>),
    /// The message was lost: its target was not there, or refused it for this reason.
    Lost(Refusal),
}

impl<S, C> StepAnswer<S, C> {
    /// A refusal, with the content that the step held.
    ///
    /// Ours: docs/DECISIONS.md, The pool's steps.
    pub fn refused(refusal: Refusal, content: Option<C>) -> StepAnswer<S, C>
        ensures { result ≡ refused_with refusal content }
    {
        StepAnswer::Refused(Refused::new(refusal, content))
    }

    /// What a post answered.
    ///
    /// Ours: docs/DECISIONS.md, The pool's steps.
    pub fn posted(answer: Result<Posted, Refused<C>>) -> StepAnswer<S, C>
        ensures { result ≡ posted_as answer }
    {
        match answer {
            Ok(posted) => StepAnswer::Posted {
                number: posted.number,
                wake: posted.wake,
            },
            Err(refused) => StepAnswer::refused(refused.refusal, Some(refused.value)),
        }
    }

    /// What a tick answered.
    ///
    /// Ours: docs/DECISIONS.md, The pool's steps.
    pub fn ticked(answer: Result<Ticked, Refusal>) -> StepAnswer<S, C>
        ensures { result ≡ ticked_as answer }
    {
        match answer {
            Ok(ticked) => StepAnswer::Ticked {
                expired: ticked.expired,
                wake: ticked.wake,
            },
            Err(refusal) => StepAnswer::refused(refusal, None),
        }
    }

    /// What came of it that the machine was served: what its turn did, that it has a message to be taken out, or that it
    /// rests.
    ///
    /// Ours: docs/DECISIONS.md, The pool's steps.
    pub fn served(answer: Result<Served<S>, Refusal>) -> StepAnswer<S, C>
        ensures { result ≡ served_as answer }
    {
        match answer {
            Ok(Served::Turned(report)) => StepAnswer::Turned(report),
            Ok(Served::Sending) => StepAnswer::Moved,
            Ok(Served::Rested) => StepAnswer::Rested,
            Err(refusal) => StepAnswer::refused(refusal, None),
        }
    }

    /// What a reply answered.
    ///
    /// Ours: docs/DECISIONS.md, The pool's steps.
    pub fn replied(answer: Result<bool, Refused<C>>) -> StepAnswer<S, C>
        ensures { result ≡ replied_as answer }
    {
        match answer {
            Ok(taken) => StepAnswer::Replied(taken),
            Err(refused) => StepAnswer::refused(refused.refusal, Some(refused.value)),
        }
    }

    /// What a collect answered.
    ///
    /// Ours: docs/DECISIONS.md, The pool's steps.
    pub fn collected(answer: Result<Collected<C>, Refusal>) -> StepAnswer<S, C>
        ensures { result ≡ collected_as answer }
    {
        match answer {
            Ok(collected) => StepAnswer::Collected(collected),
            Err(refusal) => StepAnswer::refused(refusal, None),
        }
    }

    /// What a stop answered.
    ///
    /// Ours: docs/DECISIONS.md, The pool's steps.
    pub fn stopped(answer: Result<u32, Refusal>) -> StepAnswer<S, C>
        ensures { result ≡ stopped_as answer }
    {
        match answer {
            Ok(word) => StepAnswer::Stopped(word),
            Err(refusal) => StepAnswer::refused(refusal, None),
        }
    }

    /// What a take-out answered.
    ///
    /// Ours: docs/DECISIONS.md, The pool's steps.
    pub fn taken_out(answer: Result<Option<Message<C>>, Refusal>) -> StepAnswer<S, C>
        ensures { result ≡ taken_out_as answer }
    {
        match answer {
            Ok(message) => StepAnswer::TakenOut(message),
            Err(refusal) => StepAnswer::refused(refusal, None),
        }
    }
}

impl<S, C: Drop> StepAnswer<S, C> {
    /// What comes of it that a message, of this sender and number, was refused by its target: it is lost for this reason.
    /// Where memory was wanted and there was none, the message comes back, to be delivered again.
    ///
    /// Ours: docs/DECISIONS.md, Messages.
    pub fn undelivered(
        sender: MachineId,
        number: u64,
        target: MachineId,
        refused: Refused<C>,
    ) -> Result<StepAnswer<S, C>, Message<C>>
        ensures lost { IfOk result (λ answer. (answer ≡ said.Lost refused.refusal) × (refused.refusal ≡ NoMemory → ⊥)) }

        ensures again { IfErr result (λ message. (refused.refusal ≡ NoMemory) × (message ≡ record { sender = sender; number = number; target = target; content = refused.value })) }
    {
        if is_no_memory(refused.refusal) {
            Err(Message {
                sender,
                number,
                target,
                content: refused.value,
            })
        } else {
            Ok(StepAnswer::Lost(refused.refusal))
        }
    }
}

/// Says whether a refusal is one for want of memory.
fn is_no_memory(refusal: Refusal) -> bool
    ensures { result ≡ true ↔ refusal ≡ NoMemory }
{
    matches!(refusal, Refusal::NoMemory)
}
