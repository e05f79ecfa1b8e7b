//! Settings, cancels and updates of a timer that a later one overrides.
ghost use Rattle.std.specs.Prelude.{◌≡◌, ◌≤◌, ◌<◌, ◌+◌, ◌||◌, length, slice_get, slice_set, if◌then◌else◌, Bool, OnOk, OnErr, IsOk, IfOk};
ghost use Rattle.std.specs.Option.{option_and_then, option_to_list};
ghost use Rattle.st_events.specs.declared.action.Action.TheVariants as action;
ghost use Rattle.st_events.specs.declared.timer.Timer.{Timer};
ghost use Rattle.st_actions.specs.Counted.{IsCountOf};
ghost use Rattle.st_actions.specs.Noted.{is_noted, room};
ghost use Rattle.st_actions.specs.Plan.{replies_of, inserts_of, sends_of, postpone_or, settings_of, sets};
ghost use Rattle.st_actions.specs.Taking.{all_settings_of, timer_set};
ghost use Rattle.st_actions.specs.Once.{overrides};

use crate::counts::{Counts, count};
use crate::noted_timers::NotedTimers;
use st_events::{Action, Actions, Timer};
use std::alloc::{AllocError, Global};

/// Counts what a list of actions asks for, where of all that is asked of one timer, to set, cancel or update it, the
/// last alone is left: `Hibernate` stands in the places of the others. For a list of at most four, and for one with at
/// most one setting, it takes no memory. Where memory is wanted and there is none, the list stays as it is.
///
/// Manual: `action()`, on the last one that decides; ours: docs/DECISIONS.md, Hibernation.
pub fn count_last<C: Drop>(alloc: Global, actions: &mut Actions<C>) -> Result<Counts, AllocError>
    ensures counted { IfOk result (λ counts. IsCountOf counts actions.new) }
    ensures last { OnOk result (all_settings_of actions.new ≡ settings_of actions.old) }
    ensures same_replies { replies_of actions.new ≡ replies_of actions.old }
    ensures same_inserts { inserts_of actions.new ≡ inserts_of actions.old }
    ensures same_sends { sends_of actions.new ≡ sends_of actions.old }
    ensures same_postpone { (given : Bool) → postpone_or given actions.new ≡ postpone_or given actions.old }
    ensures as_many { length actions.new ≡ length actions.old }

    ensures inline { length actions.old ≤ 4 → IsOk result }
    ensures unchanged { OnErr result (actions.new ≡ actions.old) }
{
    let counts = count(actions);
    if counts.settings <= 1 {
        return Ok(counts);
    }
    keep_last(alloc, actions)?;
    Ok(count(actions))
}

/// Puts `Hibernate` in the place of each setting that a later one of its timer overrides. Each action is looked at once,
/// and the timers that later ones set are noted.
// Few lists have two settings, and the others are not to get anything ready for this.
#[inline(never)]
fn keep_last<C: Drop>(alloc: Global, actions: &mut Actions<C>) -> Result<(), AllocError>
    ensures last { OnOk result (all_settings_of actions.new ≡ settings_of actions.old) }
    ensures same_replies { replies_of actions.new ≡ replies_of actions.old }
    ensures same_inserts { inserts_of actions.new ≡ inserts_of actions.old }
    ensures same_sends { sends_of actions.new ≡ sends_of actions.old }
    ensures same_postpone { (given : Bool) → postpone_or given actions.new ≡ postpone_or given actions.old }
    ensures as_many { length actions.new ≡ length actions.old }

    ensures inline { length actions.old ≤ 4 → IsOk result }
    ensures unchanged { OnErr result (actions.new ≡ actions.old) }
{
    let mut noted = NotedTimers::with_room(alloc, actions.len())?;
    let mut index = actions.len();
    while index > 0 {
        index -= 1;
        keep_at(actions, index, &mut noted);
    }
    Ok(())
}

/// Notes the timer of which the action at an index asks something, or, where it is noted, puts `Hibernate` in the
/// action's place.
fn keep_at<C: Drop>(actions: &mut Actions<C>, index: usize, noted: &mut NotedTimers)
    requires room { 0 < room noted.old }
    ensures kept { actions.new ≡ (if overrides noted.old (slice_get actions.old index) then slice_set actions.old index action.Hibernate else actions.old) }
    ensures noted { (timer : Timer) → is_noted timer noted.new ≡ (sets timer (option_to_list (slice_get actions.old index)) || is_noted timer noted.old) }
    ensures room { room noted.old ≤ room noted.new + 1 }
{
    let Some(timer) = timer_at(actions, index) else {
        return;
    };
    if !noted.note(timer) {
        let _overridden = actions.replace(index, Action::Hibernate);
    }
}

/// The timer that the action at an index sets, cancels or updates.
fn timer_at<C>(actions: &Actions<C>, index: usize) -> Option<Timer>
    ensures { result ≡ option_and_then timer_set (slice_get actions.now index) }
{
    match actions.get(index) {
        Some(Action::Set(timer, _, _) | Action::Cancel(timer) | Action::Update(timer, _)) => {
            Some(*timer)
        }
        _ => None,
    }
}
