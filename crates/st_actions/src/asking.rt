//! What is asked of timers, in the making.
ghost use Rattle.std.specs.Prelude.{◌≡◌, ◌<◌, ◌≤◌, ◌+◌, ◌||◌, reverse};
ghost use Rattle.st_events.specs.Rows.{SettingsFit};
ghost use Rattle.st_events.specs.Timers.{same_timer};
ghost use Rattle.st_events.specs.declared.timer.Timer.{Timer};
ghost use Rattle.st_actions.specs.Noted.{is_noted, room};
ghost use Rattle.st_actions.specs.Plan.{asked_unless};

use crate::noted_timers::NotedTimers;
use st_events::{Asked, Setting, SmallListBuilder, Timer};

/// Adds what is asked of a timer to a list that is made from its end on, unless the timer is noted, and notes it. It
/// takes no memory, and cannot fail.
pub(crate) fn ask<C: Drop>(
    timer: Timer,
    asked: Asked<C>,
    noted: &mut NotedTimers,
    settings: &mut SmallListBuilder<Setting<C>>,
)
    requires settings_fit { SettingsFit C.row }
    requires reserved { 0 < settings.old.reserved }
    requires room { 0 < room noted.old }
    ensures asked { reverse settings.new.items ≡ asked_unless (is_noted timer noted.old) timer asked (reverse settings.old.items) }
    ensures reserved { settings.old.reserved ≤ settings.new.reserved + 1 }
    ensures noted { (other : Timer) → is_noted other noted.new ≡ (same_timer other timer || is_noted other noted.old) }
    ensures room { room noted.old ≤ room noted.new + 1 }
{
    if noted.note(timer) {
        settings.push(Setting { timer, asked });
    }
}
