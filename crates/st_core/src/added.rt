//! Actions and replies that follow others, as if in one list.
ghost use Rattle.std.specs.Prelude.{◌≡◌, ◌++◌, IfOk, OnOk};
ghost use Rattle.std.specs.Option.{option_or};
ghost use Rattle.st_events.specs.Rows.{EnterActionsFit, RepliesFit};
ghost use Rattle.st_actions.specs.Joined.{as_action, as_actions};
ghost use Rattle.st_core.specs.Callbacks.{reply_actions, entered_as};

use st_events::{Action, Actions, EnterAction, EnterActions, EnterOutcome, Reason, Replies};
use std::alloc::{AllocError, Global};

/// Replies, as actions. Of up to four this takes no memory.
pub(crate) fn as_reply_actions<C: Drop>(
    alloc: Global,
    replies: Replies<C>,
) -> Result<Actions<C>, AllocError>
    requires replies_fit { RepliesFit C.row }
    ensures { IfOk result (λ actions. actions ≡ reply_actions replies) }
{
    let mut actions = Actions::new(alloc);
    add_replies(&mut actions, replies)?;
    Ok(actions)
}

/// Adds what an enter call asks for behind actions, as if in one list: its actions, or, where it stops the machine, the
/// replies with which it does. It answers the new data, its own or else these, where there are some, and the reason to
/// stop, if there is one. Where memory is wanted and there is none, some of the actions may have come in.
pub(crate) fn add_entered<D: Drop, C: Drop>(
    actions: &mut Actions<C>,
    entered: EnterOutcome<D, C>,
    data: Option<D>,
) -> Result<(Option<D>, Option<Reason>), AllocError>
    requires enter_actions_fit { EnterActionsFit C.row }
    requires replies_fit { RepliesFit C.row }
    ensures added { OnOk result (actions.new ≡ actions.old ++ as_actions (entered_as entered).actions) }
    ensures new_data { IfOk result (λ asked. asked.0 ≡ option_or (entered_as entered).data «data») }
    ensures reason { IfOk result (λ asked. asked.1 ≡ (entered_as entered).reason) }
{
    match entered {
        EnterOutcome::KeepState(new, more) => {
            add_actions(actions, more)?;
            Ok((Some(new), None))
        }
        EnterOutcome::KeepStateAndData(more) => {
            add_actions(actions, more)?;
            Ok((data, None))
        }
        EnterOutcome::Stop(reason, new) => Ok((new.or(data), Some(reason))),
        EnterOutcome::StopAndReply(reason, replies, new) => {
            add_replies(actions, replies)?;
            Ok((new.or(data), Some(reason)))
        }
    }
}

/// Adds replies behind actions, in their order. Where memory is wanted and there is none, some of them may have come in.
fn add_replies<C: Drop>(actions: &mut Actions<C>, replies: Replies<C>) -> Result<(), AllocError>
    requires replies_fit { RepliesFit C.row }
    ensures { OnOk result (actions.new ≡ actions.old ++ reply_actions replies) }
{
    let mut left = replies.into_places();
    for (tag, content) in left.take_each() {
        actions.push(Action::Reply(tag, content))?;
    }
    Ok(())
}

/// Adds an enter call's actions behind actions, in their order. Where memory is wanted and there is none, some of them
/// may have come in.
fn add_actions<C: Drop>(actions: &mut Actions<C>, more: EnterActions<C>) -> Result<(), AllocError>
    requires enter_actions_fit { EnterActionsFit C.row }
    ensures { OnOk result (actions.new ≡ actions.old ++ as_actions more) }
{
    let mut left = more.into_places();
    for action in left.take_each() {
        actions.push(as_action(action))?;
    }
    Ok(())
}

/// The action that an enter call's action is.
fn as_action<C>(action: EnterAction<C>) -> Action<C>
    ensures { result ≡ as_action action }
{
    match action {
        EnterAction::Reply(tag, content) => Action::Reply(tag, content),
        EnterAction::Set(timer, time, content) => Action::Set(timer, time, content),
        EnterAction::Cancel(timer) => Action::Cancel(timer),
        EnterAction::Update(timer, content) => Action::Update(timer, content),
        EnterAction::Hibernate => Action::Hibernate,
    }
}
