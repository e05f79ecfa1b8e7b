//! What an entry asks of the engine.
ghost use Rattle.std.specs.Prelude.{◌≡◌, ◌++◌, IfOk};
ghost use Rattle.std.specs.Option.{option_to_list};
ghost use Rattle.st_table.specs.Lent.{shown, hears};
ghost use Rattle.st_table.specs.Rules.{enter_reply_to, enter_action_of, enter_actions_of};

use crate::at_hand::AtHand;
use crate::expression::{operand_of, time_of, value_of};
use crate::say::said;
use crate::seen::Seen;
use crate::{Ask, Signal, Value};
use st_events::{EnterAction, EnterActions};
use std::alloc::{AllocError, Global};

/// A reply, where there is a tag.
fn enter_reply_to(to: Seen<'_>, signal: Signal) -> Option<EnterAction<Signal>>
    ensures { result ≡ enter_reply_to (shown to.entry) signal }
{
    match to {
        Seen::Call(tag) => Some(EnterAction::Reply(tag, signal)),
        _ => None,
    }
}

/// The action that an ask asks for where a state is entered, if any.
fn enter_action_of(
    alloc: Global,
    at: AtHand<'_>,
    before: &[Value],
    registers: &[Value],
    ask: &Ask,
) -> Result<Option<EnterAction<Signal>>, AllocError>
    ensures { IfOk result (λ asked. asked ≡ enter_action_of (hears at.entry) before.now registers.now ask.now) }
{
    match ask {
        Ask::Reply(to, say) => {
            let to = operand_of(to, at, before, registers);
            let signal = said(alloc, at, before, registers, say)?;
            Ok(enter_reply_to(to, signal))
        }
        Ask::Set(timer, time, say) => {
            let time = time_of(value_of(time, at, before, registers));
            let signal = said(alloc, at, before, registers, say)?;
            Ok(Some(EnterAction::Set(*timer, time, signal)))
        }
        Ask::Cancel(timer) => Ok(Some(EnterAction::Cancel(*timer))),
        Ask::Update(timer, say) => {
            let signal = said(alloc, at, before, registers, say)?;
            Ok(Some(EnterAction::Update(*timer, signal)))
        }
        Ask::Hibernate => Ok(Some(EnterAction::Hibernate)),
        _ => Ok(None),
    }
}

/// One action more, if there is one.
fn with_enter_action(
    mut actions: EnterActions<Signal>,
    action: Option<EnterAction<Signal>>,
) -> Result<EnterActions<Signal>, AllocError>
    ensures { IfOk result (λ more. more ≡ actions ++ option_to_list action) }
{
    match action {
        Some(action) => {
            actions.push(action)?;
            Ok(actions)
        }
        None => Ok(actions),
    }
}

/// The actions that an entry asks for, in order. It may find no memory for more than four.
pub(crate) fn enter_actions_of(
    alloc: Global,
    at: AtHand<'_>,
    before: &[Value],
    registers: &[Value],
    asks: &[Ask],
) -> Result<EnterActions<Signal>, AllocError>
    ensures { IfOk result (λ actions. actions ≡ enter_actions_of (hears at.entry) before.now registers.now asks.now) }
{
    let mut actions = EnterActions::new(alloc);
    for ask in asks {
        let asked = enter_action_of(alloc, at, before, registers, ask)?;
        actions = with_enter_action(actions, asked)?;
    }
    Ok(actions)
}
