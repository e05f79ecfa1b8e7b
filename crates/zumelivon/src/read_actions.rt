//! Actions that a host hands in, read one by one.
ghost use Rattle.std.specs.Prelude.{◌≡◌, map, true, IfOk};
ghost use Rattle.std.specs.List.{list_all};
ghost use Rattle.zumelivon.specs.Reading.{is_action, action_in, is_enter_action, enter_action_in, is_reply, reply_in};

use crate::flat_action::FlatAction;
use crate::reading::{
    is_action, is_enter_action, is_reply, kind_of, payload_of, tag_of, time_of, timer_of,
};
use st_embedded::id_of;
use st_events::{Action, EnterAction, PlainList, Tag};
use st_hosted::Payload;
use std::alloc::{AllocError, Global};

#[tactic(auto, unfolding(crate::specs::Reading::action_in))]
fn action_of(alloc: Global, it: &FlatAction, bytes: &[u8]) -> Result<Action<Payload>, AllocError>
    requires { is_action bytes.now it.now ≡ true }
    ensures { IfOk result (λ read. read ≡ action_in bytes.now it.now) }
{
    match it.what {
        1 => Ok(Action::Reply(tag_of(it), payload_of(alloc, it, bytes)?)),
        2 => Ok(Action::Postpone(it.postpone != 0)),
        3 => Ok(Action::NextEvent(kind_of(it), payload_of(alloc, it, bytes)?)),
        4 => {
            let content = payload_of(alloc, it, bytes)?;
            Ok(Action::Set(timer_of(it), time_of(it), content))
        }
        5 => Ok(Action::Cancel(timer_of(it))),
        6 => Ok(Action::Update(timer_of(it), payload_of(alloc, it, bytes)?)),
        7 => Ok(Action::Send(id_of(it.machine), payload_of(alloc, it, bytes)?)),
        _ => Ok(Action::Hibernate),
    }
}

fn enter_action_of(
    alloc: Global,
    it: &FlatAction,
    bytes: &[u8],
) -> Result<EnterAction<Payload>, AllocError>
    requires { is_enter_action bytes.now it.now ≡ true }
    ensures { IfOk result (λ read. read ≡ enter_action_in bytes.now it.now) }
{
    match it.what {
        1 => Ok(EnterAction::Reply(tag_of(it), payload_of(alloc, it, bytes)?)),
        4 => {
            let content = payload_of(alloc, it, bytes)?;
            Ok(EnterAction::Set(timer_of(it), time_of(it), content))
        }
        5 => Ok(EnterAction::Cancel(timer_of(it))),
        6 => Ok(EnterAction::Update(timer_of(it), payload_of(alloc, it, bytes)?)),
        _ => Ok(EnterAction::Hibernate),
    }
}

/// Says whether these are actions.
pub(crate) fn are_actions(actions: &[FlatAction], bytes: &[u8]) -> bool
    ensures { result ≡ list_all (is_action bytes.now) actions.now }
{
    for it in actions {
        if !is_action(it, bytes) {
            return false;
        }
    }
    true
}

/// Says whether these are actions of an enter call.
pub(crate) fn are_enter_actions(actions: &[FlatAction], bytes: &[u8]) -> bool
    ensures { result ≡ list_all (is_enter_action bytes.now) actions.now }
{
    for it in actions {
        if !is_enter_action(it, bytes) {
            return false;
        }
    }
    true
}

/// Says whether these are replies.
pub(crate) fn are_replies(actions: &[FlatAction], bytes: &[u8]) -> bool
    ensures { result ≡ list_all (is_reply bytes.now) actions.now }
{
    for it in actions {
        if !is_reply(it, bytes) {
            return false;
        }
    }
    true
}

/// The actions.
pub(crate) fn actions_of(
    alloc: Global,
    actions: &[FlatAction],
    bytes: &[u8],
) -> Result<PlainList<Action<Payload>>, AllocError>
    requires { list_all (is_action bytes.now) actions.now ≡ true }
    ensures { IfOk result (λ read. read ≡ map (action_in bytes.now) actions.now) }
{
    let mut read = PlainList::new(alloc);
    for it in actions {
        read.push(action_of(alloc, it, bytes)?)?;
    }
    Ok(read)
}

/// The actions of an enter call.
pub(crate) fn enter_actions_of(
    alloc: Global,
    actions: &[FlatAction],
    bytes: &[u8],
) -> Result<PlainList<EnterAction<Payload>>, AllocError>
    requires { list_all (is_enter_action bytes.now) actions.now ≡ true }
    ensures { IfOk result (λ read. read ≡ map (enter_action_in bytes.now) actions.now) }
{
    let mut read = PlainList::new(alloc);
    for it in actions {
        read.push(enter_action_of(alloc, it, bytes)?)?;
    }
    Ok(read)
}

/// The replies behind a stop.
pub(crate) fn replies_of(
    alloc: Global,
    actions: &[FlatAction],
    bytes: &[u8],
) -> Result<PlainList<(Tag, Payload)>, AllocError>
    requires { list_all (is_reply bytes.now) actions.now ≡ true }
    ensures { IfOk result (λ read. read ≡ map (reply_in bytes.now) actions.now) }
{
    let mut read = PlainList::new(alloc);
    for it in actions {
        let content = payload_of(alloc, it, bytes)?;
        read.push((tag_of(it), content))?;
    }
    Ok(read)
}
