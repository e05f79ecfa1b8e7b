//! Answers that a host hands in.
ghost use Rattle.std.specs.Prelude.{◌≡◌, true, IfOk};
ghost use Rattle.zumelivon.specs.Reading.{data_in, is_outcome, outcome_in, is_entered, entered_in};

use crate::flat_action::FlatAction;
use crate::flat_answer::FlatAnswer;
use crate::read_actions::{
    actions_of, are_actions, are_enter_actions, are_replies, enter_actions_of, replies_of,
};
use st_hosted::{HostEntered, HostOutcome};
use std::alloc::{AllocError, Global};

fn data_of(it: &FlatAnswer) -> Option<u64>
    ensures { result ≡ data_in it.now }
{
    if it.has_data == 0 {
        None
    } else {
        Some(it.data)
    }
}

/// Says whether this is an answer to an event.
pub(crate) fn is_outcome(it: &FlatAnswer, actions: &[FlatAction], bytes: &[u8]) -> bool
    ensures { result ≡ is_outcome bytes.now it.now actions.now }
{
    match it.what {
        1 | 2 | 3 | 4 | 5 => are_actions(actions, bytes),
        6 => actions.is_empty(),
        7 => are_replies(actions, bytes),
        _ => false,
    }
}

/// Says whether this is an answer to an enter call, or none.
pub(crate) fn is_entered(it: &FlatAnswer, actions: &[FlatAction], bytes: &[u8]) -> bool
    ensures { result ≡ is_entered bytes.now it.now actions.now }
{
    match it.what {
        0 | 6 => actions.is_empty(),
        2 | 3 => are_enter_actions(actions, bytes),
        7 => are_replies(actions, bytes),
        _ => false,
    }
}

/// The answer to an event.
pub(crate) fn outcome_of(
    alloc: Global,
    it: &FlatAnswer,
    actions: &[FlatAction],
    bytes: &[u8],
) -> Result<HostOutcome, AllocError>
    requires { is_outcome bytes.now it.now actions.now ≡ true }
    ensures { IfOk result (λ read. read ≡ outcome_in bytes.now it.now actions.now) }
{
    match it.what {
        1 => Ok(HostOutcome::NextState(it.state, it.data, actions_of(alloc, actions, bytes)?)),
        2 => Ok(HostOutcome::KeepState(it.data, actions_of(alloc, actions, bytes)?)),
        3 => Ok(HostOutcome::KeepStateAndData(actions_of(alloc, actions, bytes)?)),
        4 => Ok(HostOutcome::RepeatState(it.data, actions_of(alloc, actions, bytes)?)),
        5 => Ok(HostOutcome::RepeatStateAndData(actions_of(alloc, actions, bytes)?)),
        6 => Ok(HostOutcome::Stop(it.reason, data_of(it))),
        _ => Ok(HostOutcome::StopAndReply(
            it.reason,
            replies_of(alloc, actions, bytes)?,
            data_of(it),
        )),
    }
}

/// The answer to an enter call, if there is one.
pub(crate) fn entered_of(
    alloc: Global,
    it: &FlatAnswer,
    actions: &[FlatAction],
    bytes: &[u8],
) -> Result<Option<HostEntered>, AllocError>
    requires { is_entered bytes.now it.now actions.now ≡ true }
    ensures { IfOk result (λ read. read ≡ entered_in bytes.now it.now actions.now) }
{
    match it.what {
        0 => Ok(None),
        2 => {
            let actions = enter_actions_of(alloc, actions, bytes)?;
            Ok(Some(HostEntered::KeepState(it.data, actions)))
        }
        3 => {
            let actions = enter_actions_of(alloc, actions, bytes)?;
            Ok(Some(HostEntered::KeepStateAndData(actions)))
        }
        6 => Ok(Some(HostEntered::Stop(it.reason, data_of(it)))),
        _ => {
            let replies = replies_of(alloc, actions, bytes)?;
            Ok(Some(HostEntered::StopAndReply(it.reason, replies, data_of(it))))
        }
    }
}
