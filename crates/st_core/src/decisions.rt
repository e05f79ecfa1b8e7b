//! What a report tells of what is asked of timers.
ghost use Rattle.std.specs.Prelude.{◌≡◌, [], length, slice_get, IfOk, OnOk};
ghost use Rattle.std.specs.Option.{option_and_then, option_map};
ghost use Rattle.st_events.specs.declared.setting.Setting.{Setting};
ghost use Rattle.st_actions.specs.Taking.{all_settings_of, as_setting};
ghost use Rattle.st_core.specs.Transition.{decided_by, decisions_of};

use st_events::{Action, Actions, Decision, PlainList, Timer};
use std::alloc::{AllocError, Global};

/// Notes the timers of which actions ask something in a list, with what it is, where they are so many. Where there are
/// none, it takes no memory.
pub(crate) fn note_decisions<C>(
    alloc: Global,
    count: usize,
    actions: &Actions<C>,
    noted: &mut PlainList<(Timer, Decision)>,
) -> Result<(), AllocError>
    requires count { count ≡ length (all_settings_of actions.now) }
    requires empty { noted.old ≡ [] }
    ensures { OnOk result (noted.new ≡ decisions_of (all_settings_of actions.now)) }
{
    if count > 0 {
        *noted = decisions_of(alloc, count, actions)?;
    }
    Ok(())
}

/// The timers of which actions ask something, with what it is, where they are so many.
#[inline(never)]
fn decisions_of<C>(
    alloc: Global,
    count: usize,
    actions: &Actions<C>,
) -> Result<PlainList<(Timer, Decision)>, AllocError>
    requires { count ≡ length (all_settings_of actions.now) }
    ensures { IfOk result (λ decisions. decisions ≡ decisions_of (all_settings_of actions.now)) }
{
    let mut decisions = Vec::with_capacity(alloc, count)?;
    for index in 0..actions.len() {
        if let Some(decision) = decision_at(actions, index) {
            decisions.push_reserved(decision);
        }
    }
    Ok(PlainList::from(decisions))
}

/// The timer of which the action at an index asks something, with what it is.
fn decision_at<C>(actions: &Actions<C>, index: usize) -> Option<(Timer, Decision)>
    ensures { result ≡ option_map decided_by (option_and_then as_setting (slice_get actions.now index)) }
{
    match actions.get(index) {
        Some(Action::Set(timer, time, _)) => Some((*timer, Decision::Set(*time))),
        Some(Action::Cancel(timer)) => Some((*timer, Decision::Cancel)),
        Some(Action::Update(timer, _)) => Some((*timer, Decision::Update)),
        _ => None,
    }
}
