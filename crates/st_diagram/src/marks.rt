//! The marks of an arrow: what a callback asks for.
ghost use Rattle.std.specs.Prelude.{◌≡◌, ◌++◌, IfOk, string_bytes};
ghost use Rattle.st_diagram.specs.Marks.{mark_of, marks_of};

use st_events::{Action, Actions};
use std::alloc::{AllocError, Global};

/// The mark of an action.
fn mark<C>(action: &Action<C>) -> &'static str
    ensures { result.now ≡ mark_of action.now }
{
    match action {
        Action::Reply(_, _) => " / reply",
        Action::Postpone(true) => " / postpone",
        Action::Postpone(false) => " / no postpone",
        Action::NextEvent(_, _) => " / next event",
        Action::Set(_, _, _) => " / timer",
        Action::Cancel(_) => " / cancel timer",
        Action::Update(_, _) => " / update timer",
        Action::Send(_, _) => " / send",
        Action::Hibernate => " / hibernate",
    }
}

/// The marks of actions, in their order, behind a word.
pub(crate) fn marks<C>(
    alloc: Global,
    word: &str,
    actions: &Actions<C>,
) -> Result<String, AllocError>
    ensures { IfOk result (λ text. string_bytes text ≡ word.now ++ marks_of actions.now) }
{
    let mut text = String::from_str(alloc, word)?;
    for index in 0..actions.len() {
        if let Some(action) = actions.get(index) {
            text.push_str(mark(action))?;
        }
    }
    Ok(text)
}
