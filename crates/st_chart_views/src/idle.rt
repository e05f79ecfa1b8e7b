//! Actions that ask for nothing.

use crate::found::Found;
use crate::part::{Part, Subject};
use st_events::Timer;
use st_table::{Ask, On, Operand, Rule, Target};
use std::alloc::AllocError;

const NO_MACHINE: &str = " begins no machine: nothing comes of its actions";

const LAST: &str = " ends the machine: nothing comes of its actions but replies";

const NO_CALL: &str = " replies to the caller, and is for no call: nothing comes of it";

/// What is said of an action that asks for nothing.
fn said_of(subject: Subject, rule: &Rule, ask: &Ask) -> Option<&'static str> {
    match (subject, &rule.target, ask) {
        (Subject::Start, Target::Next(_), Ask::Reply(Operand::Caller, _)) => Some(NO_CALL),
        (Subject::Start, Target::Next(_), _) => None,
        (Subject::Start, _, _) => Some(NO_MACHINE),
        (Subject::Entry(_), _, Ask::Reply(Operand::Caller, _)) => Some(NO_CALL),
        (_, _, Ask::Reply(Operand::Caller, _)) => match rule.on {
            On::Any => None,
            On::Call => None,
            _ => Some(NO_CALL),
        },
        (_, _, Ask::Reply(_, _)) => None,
        // That one may be of `after`.
        (Subject::Entry(_), _, Ask::Set(Timer::State, _, _)) => None,
        (_, Target::Stop(_), _) => Some(LAST),
        _ => None,
    }
}

/// Warns of the first action of a rule that asks for nothing.
pub(crate) fn warn_idle(
    found: &mut Found<'_>,
    part: Part<'_>,
    place: usize,
    rule: &Rule,
) -> Result<(), AllocError> {
    for ask in rule.asks.as_slice() {
        if let Some(said) = said_of(part.subject, rule, ask) {
            return found.warn(part.subject, part.marks.get(place), said);
        }
    }
    Ok(())
}
