//! Copies of what a host answered, as a module answers it: equal to it, and each may find no memory.
ghost use Rattle.std.specs.Prelude.{◌≡◌, IfOk};
ghost use Rattle.st_hosted.specs.HostAnswer.{outcome_in, entered_by, entered_in};

use crate::{HostEntered, HostOutcome, Payload};
use st_events::{Action, Actions, EnterAction, EnterActions, EnterOutcome, Outcome, Replies, Tag};
use std::alloc::{AllocError, Global};

/// A copy of a content. Without bytes it takes no memory.
pub(crate) fn copy_payload(alloc: Global, it: &Payload) -> Result<Payload, AllocError>
    ensures { IfOk result (λ copy. copy ≡ it.now) }
{
    Payload::of(alloc, it.code, it.bytes.as_slice())
}

fn copy_action(alloc: Global, it: &Action<Payload>) -> Result<Action<Payload>, AllocError>
    ensures { IfOk result (λ copy. copy ≡ it.now) }
{
    match it {
        Action::Reply(tag, content) => Ok(Action::Reply(*tag, copy_payload(alloc, content)?)),
        Action::Postpone(says) => Ok(Action::Postpone(*says)),
        Action::NextEvent(kind, content) => {
            Ok(Action::NextEvent(*kind, copy_payload(alloc, content)?))
        }
        Action::Set(timer, time, content) => {
            Ok(Action::Set(*timer, *time, copy_payload(alloc, content)?))
        }
        Action::Cancel(timer) => Ok(Action::Cancel(*timer)),
        Action::Update(timer, content) => Ok(Action::Update(*timer, copy_payload(alloc, content)?)),
        Action::Send(id, content) => Ok(Action::Send(*id, copy_payload(alloc, content)?)),
        Action::Hibernate => Ok(Action::Hibernate),
    }
}

fn copy_enter_action(
    alloc: Global,
    it: &EnterAction<Payload>,
) -> Result<EnterAction<Payload>, AllocError>
    ensures { IfOk result (λ copy. copy ≡ it.now) }
{
    match it {
        EnterAction::Reply(tag, content) => {
            Ok(EnterAction::Reply(*tag, copy_payload(alloc, content)?))
        }
        EnterAction::Set(timer, time, content) => {
            Ok(EnterAction::Set(*timer, *time, copy_payload(alloc, content)?))
        }
        EnterAction::Cancel(timer) => Ok(EnterAction::Cancel(*timer)),
        EnterAction::Update(timer, content) => {
            Ok(EnterAction::Update(*timer, copy_payload(alloc, content)?))
        }
        EnterAction::Hibernate => Ok(EnterAction::Hibernate),
    }
}

/// The actions. Up to four without bytes take no memory.
pub(crate) fn copy_actions(
    alloc: Global,
    it: &[Action<Payload>],
) -> Result<Actions<Payload>, AllocError>
    ensures { IfOk result (λ copy. copy ≡ it.now) }
{
    let mut copy = Actions::new(alloc);
    for action in it {
        copy.push(copy_action(alloc, action)?)?;
    }
    Ok(copy)
}

fn copy_enter_actions(
    alloc: Global,
    it: &[EnterAction<Payload>],
) -> Result<EnterActions<Payload>, AllocError>
    ensures { IfOk result (λ copy. copy ≡ it.now) }
{
    let mut copy = EnterActions::new(alloc);
    for action in it {
        copy.push(copy_enter_action(alloc, action)?)?;
    }
    Ok(copy)
}

fn copy_replies(alloc: Global, it: &[(Tag, Payload)]) -> Result<Replies<Payload>, AllocError>
    ensures { IfOk result (λ copy. copy ≡ it.now) }
{
    let mut copy = Replies::new(alloc);
    for (tag, content) in it {
        copy.push((*tag, copy_payload(alloc, content)?))?;
    }
    Ok(copy)
}

/// What `handle` answers.
pub(crate) fn copy_outcome(
    alloc: Global,
    it: &HostOutcome,
) -> Result<Outcome<u64, u64, Payload>, AllocError>
    ensures { IfOk result (λ copy. copy ≡ outcome_in it.now) }
{
    match it {
        HostOutcome::NextState(state, held, actions) => {
            Ok(Outcome::NextState(*state, *held, copy_actions(alloc, actions.as_slice())?))
        }
        HostOutcome::KeepState(held, actions) => {
            Ok(Outcome::KeepState(*held, copy_actions(alloc, actions.as_slice())?))
        }
        HostOutcome::KeepStateAndData(actions) => {
            Ok(Outcome::KeepStateAndData(copy_actions(alloc, actions.as_slice())?))
        }
        HostOutcome::RepeatState(held, actions) => {
            Ok(Outcome::RepeatState(*held, copy_actions(alloc, actions.as_slice())?))
        }
        HostOutcome::RepeatStateAndData(actions) => {
            Ok(Outcome::RepeatStateAndData(copy_actions(alloc, actions.as_slice())?))
        }
        HostOutcome::Stop(reason, held) => Ok(Outcome::Stop(*reason, *held)),
        HostOutcome::StopAndReply(reason, replies, held) => Ok(Outcome::StopAndReply(
            *reason,
            copy_replies(alloc, replies.as_slice())?,
            *held,
        )),
    }
}

fn copy_entered(alloc: Global, it: &HostEntered) -> Result<EnterOutcome<u64, Payload>, AllocError>
    ensures { IfOk result (λ copy. copy ≡ entered_by it.now) }
{
    match it {
        HostEntered::KeepState(held, actions) => {
            Ok(EnterOutcome::KeepState(*held, copy_enter_actions(alloc, actions.as_slice())?))
        }
        HostEntered::KeepStateAndData(actions) => {
            Ok(EnterOutcome::KeepStateAndData(copy_enter_actions(alloc, actions.as_slice())?))
        }
        HostEntered::Stop(reason, held) => Ok(EnterOutcome::Stop(*reason, *held)),
        HostEntered::StopAndReply(reason, replies, held) => Ok(EnterOutcome::StopAndReply(
            *reason,
            copy_replies(alloc, replies.as_slice())?,
            *held,
        )),
    }
}

/// What `enter` answers. Where nothing was told, it keeps state and data and asks for nothing.
pub(crate) fn copy_enter_outcome(
    alloc: Global,
    it: &Option<HostEntered>,
) -> Result<EnterOutcome<u64, Payload>, AllocError>
    ensures { IfOk result (λ copy. copy ≡ entered_in it.now) }
{
    match it {
        Some(entered) => copy_entered(alloc, entered),
        None => Ok(EnterOutcome::KeepStateAndData(EnterActions::new(alloc))),
    }
}
