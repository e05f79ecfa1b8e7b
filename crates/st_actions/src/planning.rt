//! Actions taken apart.
ghost use Rattle.std.specs.Prelude.{◌≡◌, ◌≤◌, length, IsOk, IfOk, IfErr};
ghost use Rattle.st_events.specs.Rows.{ActionsFit, RepliesFit, InsertsFit, SettingsFit, SendsFit};
ghost use Rattle.st_actions.specs.Plan.{plan_of};

use crate::Planned;
use crate::asking::ask;
use crate::in_order::in_order;
use crate::noted_timers::NotedTimers;
use st_events::{Action, Actions, Asked, Insert, SmallListBuilder};
use std::alloc::{AllocFailed, Global};

/// Takes a list of actions apart, into what is asked for. Of a list of at most four it takes no memory.
/// Where memory is wanted and there is none, the list comes back. Each action is looked at once, and the timers
/// of which later ones ask something are noted.
///
/// Manual: `action()`: `reply_action()`, `postpone()`, `next_event`, `timeout_action()`,
/// `timeout_cancel_action()`, `timeout_update_action()`, `hibernate()`; ours: docs/DECISIONS.md, Messages.
pub fn plan<C: Drop>(
    alloc: Global,
    mut actions: Actions<C>,
) -> Result<Planned<C>, AllocFailed<Actions<C>>>
    requires actions_fit { ActionsFit C.row }
    requires replies_fit { RepliesFit C.row }
    requires inserts_fit { InsertsFit C.row }
    requires settings_fit { SettingsFit C.row }
    requires sends_fit { SendsFit C.row }
    ensures planned { IfOk result (λ planned. planned ≡ plan_of actions) }

    ensures inline { length actions ≤ 4 → IsOk result }
    ensures value_returned { IfErr result (λ failed. failed.value ≡ actions) }
{
    let count = actions.len();
    let Ok(mut noted) = NotedTimers::with_room(alloc, count) else {
        return Err(AllocFailed { value: actions });
    };
    let Ok(mut replies) = SmallListBuilder::with_reserved(alloc, count) else {
        drop(noted);
        return Err(AllocFailed { value: actions });
    };
    let Ok(mut inserts) = SmallListBuilder::with_reserved(alloc, count) else {
        drop(replies);
        drop(noted);
        return Err(AllocFailed { value: actions });
    };
    let Ok(mut settings) = SmallListBuilder::with_reserved(alloc, count) else {
        drop(inserts);
        drop(replies);
        drop(noted);
        return Err(AllocFailed { value: actions });
    };
    let Ok(mut sends) = SmallListBuilder::with_reserved(alloc, count) else {
        drop(settings);
        drop(inserts);
        drop(replies);
        drop(noted);
        return Err(AllocFailed { value: actions });
    };
    // The last action comes first: of the postpones the last decides, and of all that is asked of one timer.
    let mut postpone = None;
    while let Some(action) = actions.pop() {
        match action {
            Action::Reply(tag, content) => replies.push((tag, content)),
            Action::Postpone(last) => postpone = postpone.or(Some(last)),
            Action::NextEvent(kind, content) => inserts.push(Insert { kind, content }),
            Action::Set(timer, time, content) => {
                ask(timer, Asked::Set(time, content), &mut noted, &mut settings);
            }
            Action::Cancel(timer) => ask(timer, Asked::Cancel, &mut noted, &mut settings),
            Action::Update(timer, content) => {
                ask(timer, Asked::Update(content), &mut noted, &mut settings);
            }
            Action::Send(target, content) => sends.push((target, content)),
            Action::Hibernate => {}
        }
    }
    let replies = in_order(replies);
    let inserts = in_order(inserts);
    let settings = in_order(settings);
    let sends = in_order(sends);
    Ok(Planned {
        replies,
        postpone: postpone.unwrap_or(false),
        inserts,
        requests: settings,
        sends,
    })
}
