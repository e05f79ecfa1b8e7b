//! The index from timers to places.
ghost use Rattle.std.specs.Prelude.{◌≡◌, ◌+◌, ◌<◌, ◌≤◌, ◌==◌, ◌⊎◌, ℕ, nat_eq, true, is_some, if◌then◌else◌, OnOk};
ghost use Rattle.st_events.specs.declared.timer.Timer.{Timer};
ghost use Rattle.st_events.specs.Timers.{same_timer};
ghost use Rattle.std.specs.HashMap.{get, spare};
ghost use Rattle.st_timer_map.specs.Index.{knows, place_in, HasRoom, HasPlace};

use st_events::Timer;
use std::alloc::AllocError;
use std::collections::HashMap;

/// The places of timers. Those of the names are told only once a map for them is given. The map lies in a box, so that
/// whoever has no names carries a pointer alone.
#[derive(Drop)]
pub(crate) struct Index {
    event: Option<usize>,
    state: Option<usize>,
    named: Option<Box<HashMap<u32, usize>>>,
}

impl Index {
    /// It tells of no timer, and has no map for names.
    pub(crate) fn new() -> Index
        ensures { result ≡ record { event = None; state = None; named = None } }
    {
        Index {
            event: None,
            state: None,
            named: None,
        }
    }

    /// Says whether it tells the place of this timer.
    pub(crate) fn knows(&self, timer: Timer) -> bool
        ensures { result ≡ knows self.now timer }
    {
        match timer {
            Timer::Event | Timer::State => true,
            Timer::Named(_) => self.named.is_some(),
        }
    }

    /// Says whether it has a map for names.
    pub(crate) fn has_names(&self) -> bool
        ensures { result ≡ is_some self.now.named }
    {
        self.named.is_some()
    }

    /// The place that it tells of a timer.
    pub(crate) fn place(&self, timer: Timer) -> Option<usize>
        ensures { result ≡ place_in self.now timer }
    {
        match timer {
            Timer::Event => self.event,
            Timer::State => self.state,
            Timer::Named(name) => match &self.named {
                None => None,
                Some(map) => map.get(&name).copied(),
            },
        }
    }

    /// Writes the place of a timer. Where it tells of this timer, the place is written over and no room is taken.
    pub(crate) fn write(&mut self, timer: Timer, place: usize)
        requires { HasPlace self.old timer ⊎ HasRoom self.old 1 }
        ensures knows { (other : Timer) → knows self.new other ≡ knows self.old other }
        ensures places { (other : Timer) → knows self.old other ≡ true → place_in self.new other ≡ (if same_timer timer other then Some place else place_in self.old other) }
        ensures again { HasPlace self.old timer → (count : ℕ) → HasRoom self.old count → HasRoom self.new count }
        ensures room { (count : ℕ) → HasRoom self.old (count + 1) → HasRoom self.new count }
    {
        match timer {
            Timer::Event => self.event = Some(place),
            Timer::State => self.state = Some(place),
            Timer::Named(name) => {
                if let Some(map) = &mut self.named {
                    write_name(map, name, place);
                }
            }
        }
    }

    /// It tells of this timer no more. The room stays.
    pub(crate) fn forget(&mut self, timer: Timer)
        ensures knows { (other : Timer) → knows self.new other ≡ knows self.old other }
        ensures places { (other : Timer) → place_in self.new other ≡ (if same_timer timer other then None else place_in self.old other) }
        ensures room { (count : ℕ) → HasRoom self.old count → HasRoom self.new count }
    {
        match timer {
            Timer::Event => self.event = None,
            Timer::State => self.state = None,
            Timer::Named(name) => {
                if let Some(map) = &mut self.named {
                    let _ = map.remove(&name);
                }
            }
        }
    }

    /// Makes room for so many names more, where there is a map for them.
    pub(crate) fn reserve(&mut self, count: usize) -> Result<(), AllocError>
        ensures knows { (other : Timer) → knows self.new other ≡ knows self.old other }
        ensures places { (other : Timer) → place_in self.new other ≡ place_in self.old other }
        ensures kept { (count : ℕ) → HasRoom self.old count → HasRoom self.new count }
        ensures room { OnOk result (HasRoom self.new count) }
    {
        match &mut self.named {
            None => Ok(()),
            Some(map) => map.reserve(count),
        }
    }

    /// Takes a map for the names.
    pub(crate) fn learn(&mut self, named: Box<HashMap<u32, usize>>)
        ensures { self.new ≡ record self.old { named = Some named } }
    {
        self.named = Some(named);
    }
}

/// Writes the place of a name.
fn write_name(map: &mut HashMap<u32, usize>, name: u32, place: usize)
    requires { (is_some (get nat_eq map.old name) ≡ true) ⊎ (0 < spare map.old) }
    ensures places { (other : ℕ) → get nat_eq map.new other ≡ (if name == other then Some place else get nat_eq map.old other) }
    ensures again { is_some (get nat_eq map.old name) ≡ true → spare map.new ≡ spare map.old }
    ensures room { spare map.old ≤ spare map.new + 1 }
{
    match map.get_mut(&name) {
        Some(known) => *known = place,
        None => match map.insert(name, place) {
            Ok(_) => {}
            Err(_) => unreachable!(),
        },
    }
}
