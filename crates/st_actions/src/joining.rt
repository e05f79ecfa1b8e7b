//! What two lists of actions ask for, put together.
ghost use Rattle.std.specs.Prelude.{◌≡◌, ◌+◌, ◌≤◌, List, [], ◌++◌, length, max, filter, not, IsOk, IfOk, IfErr};
ghost use Rattle.std.specs.Mem.{FitsInMemory};
ghost use Rattle.st_events.specs.Rows.{RepliesFit, InsertsFit, SettingsFit, SendsFit};
ghost use Rattle.st_events.specs.contracts.small_list.SmallList.{the_row as list_row};
ghost use Rattle.st_events.specs.declared.action.Action.{Action};
ghost use Rattle.st_events.specs.declared.enter_action.EnterAction.{EnterAction};
ghost use Rattle.st_events.specs.declared.timer.Timer.{Timer};
ghost use Rattle.st_actions.specs.Joined.{is_set_by, joined_of, enter_plan_of, as_actions, AreShort, with_elements};
ghost use Rattle.st_actions.specs.Noted.{is_noted};
ghost use Rattle.st_actions.specs.Plan.{plan_of};

use crate::Planned;
use crate::noted_timers::NotedTimers;
use st_events::{Setting, Settings, SmallList, SmallListBuilder};
use std::alloc::{AllocError, AllocFailed, Global};

/// Joins what two lists of actions ask for, one after the other: those of an event, and those of the
/// enter call that follows it. The first alone says whether the event is postponed. So what comes of the plans
/// of two lists is the plan of both as one list. Where both together
/// have at most four of each kind it takes no memory. Where memory is wanted and there is none, both
/// come back. Each setting is looked at once, and the timers of which the second list asks something are noted.
///
/// Manual: `state_enter()`; `action()`, on the last one that decides.
pub fn join<C: Drop>(
    alloc: Global,
    first: Planned<C>,
    second: Planned<C>,
) -> Result<Planned<C>, AllocFailed<(Planned<C>, Planned<C>)>>
    requires replies_fit { RepliesFit C.row }
    requires inserts_fit { InsertsFit C.row }
    requires settings_fit { SettingsFit C.row }
    requires sends_fit { SendsFit C.row }
    ensures joined { IfOk result (λ planned. planned ≡ joined_of first second) }
    ensures plan_of_both { (actions : List (Action C)) (enter : List (EnterAction C))
        → first ≡ plan_of actions → second ≡ enter_plan_of enter → IfOk result (λ planned. planned ≡ plan_of (actions ++ as_actions enter)) }

    ensures inline { AreShort first second → IsOk result }
    ensures value_returned { IfErr result (λ failed. failed.value ≡ (first, second)) }
{
    let Ok(mut replies) = reserved_for(alloc, &first.replies, &second.replies) else {
        return Err(AllocFailed {
            value: (first, second),
        });
    };
    let Ok(mut inserts) = reserved_for(alloc, &first.inserts, &second.inserts) else {
        drop(replies);
        return Err(AllocFailed {
            value: (first, second),
        });
    };
    let Ok(mut settings) = reserved_for(alloc, &first.requests, &second.requests) else {
        drop(inserts);
        drop(replies);
        return Err(AllocFailed {
            value: (first, second),
        });
    };
    let Ok(mut sends) = reserved_for(alloc, &first.sends, &second.sends) else {
        drop(settings);
        drop(inserts);
        drop(replies);
        return Err(AllocFailed {
            value: (first, second),
        });
    };
    let Ok(later) = timers_of(alloc, &second.requests) else {
        drop(sends);
        drop(settings);
        drop(inserts);
        drop(replies);
        return Err(AllocFailed {
            value: (first, second),
        });
    };
    let postpone = first.postpone;
    move_all(first.replies, &mut replies);
    move_all(second.replies, &mut replies);
    move_all(first.inserts, &mut inserts);
    move_all(second.inserts, &mut inserts);
    move_remaining(first.requests, &later, &mut settings);
    move_all(second.requests, &mut settings);
    move_all(first.sends, &mut sends);
    move_all(second.sends, &mut sends);
    let replies = replies.finish();
    let inserts = inserts.finish();
    let settings = settings.finish();
    let sends = sends.finish();
    Ok(Planned {
        replies,
        postpone,
        inserts,
        requests: settings,
        sends,
    })
}

/// A list in the making, reserved so that the elements of two lists can come in. For up to four this takes
/// no memory.
fn reserved_for<T: Drop>(
    alloc: Global,
    first: &SmallList<T>,
    second: &SmallList<T>,
) -> Result<SmallListBuilder<T>, AllocError>
    ensures reserved { IfOk result (λ builder. builder ≡ record { items = []; reserved = max 4 (length first.now + length second.now) }) }

    ensures inline { length first.now + length second.now ≤ 4 → IsOk result }
{
    let Some(count) = first.len().checked_add(second.len()) else {
        return Err(AllocError);
    };
    SmallListBuilder::with_reserved(alloc, count)
}

/// Moves a list's elements to the end of a list in the making, in their order.
fn move_all<T: Drop>(elements: SmallList<T>, onto: &mut SmallListBuilder<T>)
    requires fits { FitsInMemory (list_row T.row) }
    requires reserved { length elements ≤ onto.old.reserved }
    ensures moved { onto.new ≡ with_elements onto.old elements }
{
    let mut left = elements.into_places();
    for element in left.take_each() {
        onto.push(element);
    }
}

/// The timers of which settings ask something. For up to four settings this takes no memory.
fn timers_of<C>(alloc: Global, settings: &Settings<C>) -> Result<NotedTimers, AllocError>
    ensures noted { IfOk result (λ noted. (timer : Timer) → is_noted timer noted ≡ is_set_by timer settings.now) }

    ensures inline { length settings.now ≤ 4 → IsOk result }
{
    let count = settings.len();
    let mut noted = NotedTimers::with_room(alloc, count)?;
    for index in 0..count {
        if let Some(setting) = settings.get(index) {
            noted.note(setting.timer);
        }
    }
    Ok(noted)
}

/// Moves the settings whose timers the later ones leave alone to the end of a list in the making, in their order.
fn move_remaining<C: Drop>(
    settings: Settings<C>,
    later: &NotedTimers,
    onto: &mut SmallListBuilder<Setting<C>>,
)
    requires settings_fit { SettingsFit C.row }
    requires reserved { length settings ≤ onto.old.reserved }
    ensures moved { onto.new ≡ with_elements onto.old (filter (λ setting. not (is_noted setting.timer later.now)) settings) }
{
    let mut left = settings.into_places();
    for setting in left.take_each() {
        if !later.has(setting.timer) {
            onto.push(setting);
        }
    }
}
