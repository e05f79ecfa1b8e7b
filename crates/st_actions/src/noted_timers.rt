//! Timers that were noted.
ghost use Rattle.std.specs.Prelude.{◌≡◌, ◌+◌, ◌<◌, ◌≤◌, ◌==◌, ◌||◌, false, not, slice_get, IsOk, IfOk};
ghost use Rattle.std.specs.List.{list_any};
ghost use Rattle.std.specs.Option.{option_to_list};
ghost use Rattle.st_events.specs.declared.timer.Timer.{Timer};
ghost use Rattle.st_events.specs.declared.timer.Timer.TheVariants as timers;
ghost use Rattle.st_events.specs.Timers.{same_timer};
ghost use Rattle.st_actions.specs.Noted.{is_noted, room};

use st_events::{SmallList, Timer};
use std::alloc::{AllocError, Global};
use std::collections::HashSet;

/// Timers that were noted, and room to note more. Up to four names lie in the value itself, and more are looked up by
/// their hash: so it takes as long to note one timer where many were noted as where few were.
#[derive(Drop)]
pub(crate) struct NotedTimers {
    event: bool,
    state: bool,
    // At most four.
    first_names: SmallList<u32>,
    other_names: HashSet<u32>,
}

impl NotedTimers {
    /// None is noted yet, and there is room for so many. For up to four this takes no memory. Where memory is wanted and
    /// there is none, there is no room either.
    pub(crate) fn with_room(alloc: Global, count: usize) -> Result<NotedTimers, AllocError>
        ensures empty { IfOk result (λ noted. (timer : Timer) → is_noted timer noted ≡ false) }
        ensures room { IfOk result (λ noted. count ≤ room noted) }

        ensures inline { count ≤ 4 → IsOk result }
    {
        let mut other_names = HashSet::new(alloc);
        other_names.reserve(count.saturating_sub(4))?;
        Ok(NotedTimers {
            event: false,
            state: false,
            first_names: SmallList::new(alloc),
            other_names,
        })
    }

    /// Says whether a timer was noted.
    pub(crate) fn has(&self, timer: Timer) -> bool
        ensures { result ≡ is_noted timer self.now }
    {
        match timer {
            Timer::Event => self.event,
            Timer::State => self.state,
            Timer::Named(name) => {
                has_name(&self.first_names, name) || self.other_names.contains(&name)
            }
        }
    }

    /// Notes a timer, and says whether it was not noted before. It takes no memory, and cannot fail.
    pub(crate) fn note(&mut self, timer: Timer) -> bool
        requires { 0 < room self.old }
        ensures was_new { result ≡ not (is_noted timer self.old) }
        ensures noted { (other : Timer) → is_noted other self.new ≡ (same_timer other timer || is_noted other self.old) }
        ensures room { room self.old ≤ room self.new + 1 }
    {
        if self.has(timer) {
            return false;
        }
        match timer {
            Timer::Event => self.event = true,
            Timer::State => self.state = true,
            Timer::Named(name) => self.note_name(name),
        }
        true
    }

    /// Notes the timer of a name.
    fn note_name(&mut self, name: u32)
        requires { 0 < room self.old }
        ensures noted { (other : Timer) → is_noted other self.new ≡ (same_timer other (timers.Named name) || is_noted other self.old) }
        ensures room { room self.old ≤ room self.new + 1 }
    {
        if self.first_names.len() < 4 {
            let _ = self.first_names.push(name);
        } else {
            let _ = self.other_names.insert(name);
        }
    }
}

/// Says whether a name is in a list.
fn has_name(names: &SmallList<u32>, name: u32) -> bool
    ensures { result ≡ list_any (λ other. name == other) names.now }
{
    for index in 0..names.len() {
        if is_name_at(names, index, name) {
            return true;
        }
    }
    false
}

/// Says whether a name is at an index of a list.
fn is_name_at(names: &SmallList<u32>, index: usize, name: u32) -> bool
    ensures { result ≡ list_any (λ other. name == other) (option_to_list (slice_get names.now index)) }
{
    match names.get(index) {
        None => false,
        Some(other) => name == *other,
    }
}
