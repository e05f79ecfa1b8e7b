//! What a rule of an event, or of a start, asks of the engine.
ghost use Rattle.std.specs.Prelude.{◌≡◌, ◌++◌, IfOk};
ghost use Rattle.std.specs.Option.{option_to_list};
ghost use Rattle.st_table.specs.Lent.{shown, hears};
ghost use Rattle.st_table.specs.Rules.{reply_to, send_to, action_of, actions_of};

use crate::at_hand::AtHand;
use crate::expression::{operand_of, time_of, value_of};
use crate::raised::raised_as;
use crate::say::said;
use crate::seen::Seen;
use crate::{Ask, Signal, Value};
use st_events::{Action, Actions};
use std::alloc::{AllocError, Global};

/// A reply, where there is a tag.
fn reply_to(to: Seen<'_>, signal: Signal) -> Option<Action<Signal>>
    ensures { result ≡ reply_to (shown to.entry) signal }
{
    match to {
        Seen::Call(tag) => Some(Action::Reply(tag, signal)),
        _ => None,
    }
}

/// A message, where there is a machine.
fn send_to(to: Seen<'_>, signal: Signal) -> Option<Action<Signal>>
    ensures { result ≡ send_to (shown to.entry) signal }
{
    match to {
        Seen::Machine(id) => Some(Action::Send(id, signal)),
        _ => None,
    }
}

/// The action that an ask asks for, if any.
fn action_of(
    alloc: Global,
    at: AtHand<'_>,
    before: &[Value],
    registers: &[Value],
    ask: &Ask,
) -> Result<Option<Action<Signal>>, AllocError>
    ensures { IfOk result (λ asked. asked ≡ action_of (hears at.entry) before.now registers.now ask.now) }
{
    match ask {
        Ask::Reply(to, say) => {
            let to = operand_of(to, at, before, registers);
            let signal = said(alloc, at, before, registers, say)?;
            Ok(reply_to(to, signal))
        }
        Ask::Postpone => Ok(Some(Action::Postpone(true))),
        Ask::Raise(raised, say) => {
            let signal = said(alloc, at, before, registers, say)?;
            Ok(Some(Action::NextEvent(raised_as(*raised), signal)))
        }
        Ask::Set(timer, time, say) => {
            let time = time_of(value_of(time, at, before, registers));
            let signal = said(alloc, at, before, registers, say)?;
            Ok(Some(Action::Set(*timer, time, signal)))
        }
        Ask::Cancel(timer) => Ok(Some(Action::Cancel(*timer))),
        Ask::Update(timer, say) => {
            let signal = said(alloc, at, before, registers, say)?;
            Ok(Some(Action::Update(*timer, signal)))
        }
        Ask::Send(to, say) => {
            let to = operand_of(to, at, before, registers);
            let signal = said(alloc, at, before, registers, say)?;
            Ok(send_to(to, signal))
        }
        Ask::Hibernate => Ok(Some(Action::Hibernate)),
    }
}

/// One action more, if there is one.
fn with_action(
    mut actions: Actions<Signal>,
    action: Option<Action<Signal>>,
) -> Result<Actions<Signal>, AllocError>
    ensures { IfOk result (λ more. more ≡ actions ++ option_to_list action) }
{
    match action {
        Some(action) => {
            actions.push(action)?;
            Ok(actions)
        }
        None => Ok(actions),
    }
}

/// The actions that a rule asks for, in order. It may find no memory for more than four.
pub(crate) fn actions_of(
    alloc: Global,
    at: AtHand<'_>,
    before: &[Value],
    registers: &[Value],
    asks: &[Ask],
) -> Result<Actions<Signal>, AllocError>
    ensures { IfOk result (λ actions. actions ≡ actions_of (hears at.entry) before.now registers.now asks.now) }
{
    let mut actions = Actions::new(alloc);
    for ask in asks {
        let asked = action_of(alloc, at, before, registers, ask)?;
        actions = with_action(actions, asked)?;
    }
    Ok(actions)
}
