//! What an event leads to.
ghost use Rattle.std.specs.Prelude.{◌≡◌, IfOk, Option};
ghost use Rattle.std.specs.Mem.{FitsInMemory};
ghost use Rattle.st_events.specs.contracts.outcome.Outcome.{the_row as outcome_row};
ghost use Rattle.st_events.specs.Rows.{ActionsFit, RepliesFit};
ghost use Rattle.st_diagram.specs.Arrows.{leads_to, ends, asked_of, arrow_of};

use crate::marks::marks;
use st_events::{Actions, Outcome, PlainText};
use std::alloc::{AllocError, Global};

/// An arrow of a diagram: where it leads, and with which marks.
#[derive(Drop)]
pub(crate) struct Arrow<S> {
    /// The state after the event, or `None` where the machine ends.
    pub(crate) target: Option<S>,
    /// The marks.
    pub(crate) marks: PlainText,
}

/// An arrow to a state, with the marks of actions behind a word.
fn leads<S: Copy, C>(
    alloc: Global,
    target: S,
    word: &str,
    actions: &Actions<C>,
) -> Result<Option<Arrow<S>>, AllocError>
    ensures { IfOk result (λ arrow. arrow ≡ leads_to target word.now actions.now) }
{
    let marks = PlainText::from(marks(alloc, word, actions)?);
    Ok(Some(Arrow {
        target: Some(target),
        marks,
    }))
}

/// An arrow to the end, with this mark.
fn ended<S: Copy>(alloc: Global, word: &str) -> Result<Option<Arrow<S>>, AllocError>
    ensures { IfOk result (λ arrow. arrow ≡ ends word.now) }
{
    let marks = PlainText::copied(alloc, word)?;
    Ok(Some(Arrow {
        target: None,
        marks,
    }))
}

/// The arrow of an event that changes nothing: none where nothing is asked for.
fn asked<S: Copy, C>(
    alloc: Global,
    state: S,
    actions: &Actions<C>,
) -> Result<Option<Arrow<S>>, AllocError>
    ensures { IfOk result (λ arrow. arrow ≡ asked_of state actions.now) }
{
    if actions.is_empty() {
        return Ok(None);
    }
    leads(alloc, state, "", actions)
}

/// The arrow of an event that has this outcome in a state, or `None` where it is ignored.
fn drawn<S: Copy, D, C>(
    alloc: Global,
    state: S,
    outcome: &Outcome<S, D, C>,
) -> Result<Option<Arrow<S>>, AllocError>
    requires actions_fit { ActionsFit C.row }
    ensures { IfOk result (λ arrow. arrow ≡ arrow_of state outcome.now) }
{
    match outcome {
        Outcome::NextState(next, _, actions) => leads(alloc, *next, "", actions),
        Outcome::KeepState(_, actions) => leads(alloc, state, " / data", actions),
        Outcome::KeepStateAndData(actions) => asked(alloc, state, actions),
        Outcome::RepeatState(_, actions) => leads(alloc, state, " / repeat / data", actions),
        Outcome::RepeatStateAndData(actions) => leads(alloc, state, " / repeat", actions),
        Outcome::Stop(_, _) => ended(alloc, " / stop"),
        Outcome::StopAndReply(_, _, _) => ended(alloc, " / reply / stop"),
    }
}

/// The arrow of an event that has this outcome in a state, or `None` where it is ignored. The outcome is let go.
pub(crate) fn arrow_after<S: Copy, D: Drop, C: Drop>(
    alloc: Global,
    state: S,
    outcome: Outcome<S, D, C>,
) -> Result<Option<Arrow<S>>, AllocError>
    requires outcome_fits { FitsInMemory (outcome_row S.row D.row C.row) }
    requires actions_fit { ActionsFit C.row }
    requires replies_fit { RepliesFit C.row }
    ensures { IfOk result (λ arrow. arrow ≡ arrow_of state outcome) }
{
    drawn(alloc, state, &outcome)
}
