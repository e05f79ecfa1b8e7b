//! An enter call's actions taken apart.
ghost use Rattle.std.specs.Prelude.{◌≡◌, ◌≤◌, length, IsOk, IfOk, IfErr};
ghost use Rattle.st_events.specs.Rows.{EnterActionsFit, RepliesFit, InsertsFit, SettingsFit, SendsFit};
ghost use Rattle.st_actions.specs.Joined.{enter_plan_of};

use crate::Planned;
use crate::asking::ask;
use crate::in_order::in_order;
use crate::noted_timers::NotedTimers;
use st_events::{Asked, EnterAction, EnterActions, Inserts, Sends, SmallListBuilder};
use std::alloc::{AllocFailed, Global};

/// Takes an enter call's list of actions apart, into what is asked for: nothing is postponed, inserted or sent.
/// Of a list of at most four it takes no memory. Where memory is wanted and there is none, the list comes
/// back. Each action is looked at once, and the timers of which later ones ask something are noted.
///
/// Manual: `enter_action()`: `reply_action()`, `timeout_action()`, `timeout_cancel_action()`,
/// `timeout_update_action()`, `hibernate()`.
pub fn plan_enter<C: Drop>(
    alloc: Global,
    mut actions: EnterActions<C>,
) -> Result<Planned<C>, AllocFailed<EnterActions<C>>>
    requires actions_fit { EnterActionsFit C.row }
    requires replies_fit { RepliesFit C.row }
    requires inserts_fit { InsertsFit C.row }
    requires settings_fit { SettingsFit C.row }
    requires sends_fit { SendsFit C.row }
    ensures planned { IfOk result (λ planned. planned ≡ enter_plan_of actions) }

    ensures inline { length actions ≤ 4 → IsOk result }
    ensures value_returned { IfErr result (λ failed. failed.value ≡ actions) }
{
    let count = actions.len();
    let Ok(mut noted) = NotedTimers::with_room(alloc, count) else {
        return Err(AllocFailed { value: actions });
    };
    let Ok(mut replies) = SmallListBuilder::with_reserved(alloc, count) else {
        drop(noted);
        return Err(AllocFailed { value: actions });
    };
    let Ok(mut settings) = SmallListBuilder::with_reserved(alloc, count) else {
        drop(replies);
        drop(noted);
        return Err(AllocFailed { value: actions });
    };
    // The last action comes first, for of all that is asked of one timer the last decides.
    while let Some(action) = actions.pop() {
        match action {
            EnterAction::Reply(tag, content) => replies.push((tag, content)),
            EnterAction::Set(timer, time, content) => {
                ask(timer, Asked::Set(time, content), &mut noted, &mut settings);
            }
            EnterAction::Cancel(timer) => ask(timer, Asked::Cancel, &mut noted, &mut settings),
            EnterAction::Update(timer, content) => {
                ask(timer, Asked::Update(content), &mut noted, &mut settings);
            }
            EnterAction::Hibernate => {}
        }
    }
    let replies = in_order(replies);
    let inserts = Inserts::new(alloc);
    let settings = in_order(settings);
    let sends = Sends::new(alloc);
    Ok(Planned {
        replies,
        postpone: false,
        inserts,
        requests: settings,
        sends,
    })
}
