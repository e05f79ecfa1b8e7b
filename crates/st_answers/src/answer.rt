//! What a command is answered.

use crate::Turned;
use st_events::{Message, Refusal, Refused};
use st_requests::Collected;

/// The answer to one command of a run: what the call itself answers.
///
/// Ours: docs/DECISIONS.md, Runs.
#[derive(Debug, PartialEq, Eq, Drop)]
pub enum Answer<S, C> {
    /// The event's number.
    Post(Result<u64, Refused<C>>),
    /// How many time-outs expired.
    Tick(Result<u64, Refusal>),
    /// What the turn did.
    Turn(Result<Turned<S>, Refusal>),
    /// Whether the reply was taken.
    Reply(bool),
    /// What was collected.
    Collect(Collected<C>),
    /// The machine's last word.
    Stop(Result<u32, Refusal>),
    /// The message that was taken out, if there was one.
    TakeOut(Option<Message<C>>),
}
