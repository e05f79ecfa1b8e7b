//! The time-outs that are due at once, in the order in which they were set.
ghost use Rattle.std.specs.Prelude.{◌≡◌, ◌+◌, ◌<◌, ◌≤◌, ℕ, [], length, max, slice_get, Some, IsOk, IfSome, IfNone, OnOk, OnErr};
ghost use Rattle.std.specs.List.{filter, remove};
ghost use Rattle.st_events.specs.declared.timer.Timer.{Timer};
ghost use Rattle.st_events.specs.Timers.{same_timer};
ghost use Rattle.st_timeouts.specs.Timeouts.{first_of};
ghost use Rattle.st_timeouts.specs.Zeros.{other_zero, OnceZeros, with_zero};

use st_events::Timer;
use st_long_list::LongList;
use std::alloc::{AllocError, Global};
use std::marker::Model;

/// The time-outs that are due at once, each by its timer and its number, in the order in which they were set.
#[derive(Drop)]
pub(crate) struct Zeros {
    list: LongList<(Timer, u64)>,
}

impl Model for Zeros {
    ghost use Rattle.st_timeouts.specs.Zeros.{Zeros};

    ghost Value = { Zeros };

    ghost view = { λ zeros. record { items = zeros.list.items; reserved = zeros.list.reserved } };
}

impl Zeros {
    /// None, and none is reserved for. It takes no memory.
    pub(crate) fn new(alloc: Global) -> Zeros
        ensures { result ≡ record { items = []; reserved = 0 } }
    {
        Zeros {
            list: LongList::new(alloc),
        }
    }

    /// Makes places for so many more. Where there are as many, it takes no memory; refused, it changes nothing.
    pub(crate) fn reserve(&mut self, count: usize) -> Result<(), AllocError>
        ensures reserved { OnOk result (self.new ≡ record self.old { reserved = max self.old.reserved count }) }

        ensures enough { count ≤ self.old.reserved → IsOk result }
        ensures unchanged { OnErr result (self.new ≡ self.old) }
    {
        self.list.reserve(count)
    }

    /// The first that was set.
    pub(crate) fn first(&self) -> Option<(Timer, u64)>
        ensures { result ≡ first_of self.now.items }
    {
        self.list.get(0).copied()
    }

    /// How many there are.
    pub(crate) fn len(&self) -> usize
        ensures { result ≡ length self.now.items }
    {
        self.list.len()
    }

    /// Puts one behind the others.
    pub(crate) fn put(&mut self, timer: Timer, number: u64)
        requires reserved { 0 < self.old.reserved }
        ensures { self.new ≡ with_zero self.old timer number }
    {
        self.list.insert(self.list.len(), (timer, number));
    }

    /// Takes that of a timer out. It looks at those that were set before.
    pub(crate) fn forget(&mut self, timer: Timer)
        requires once { OnceZeros self.old.items }
        ensures items { self.new.items ≡ filter (other_zero timer) self.old.items }
        ensures places { self.new.reserved + length self.new.items ≡ self.old.reserved + length self.old.items }
    {
        if let Some(place) = place_of(&self.list, timer) {
            self.list.remove(place);
        }
    }
}

/// The place of a timer's.
fn place_of(list: &LongList<(Timer, u64)>, timer: Timer) -> Option<usize>
    requires once { OnceZeros list.now.items }
    ensures within { IfSome result (λ place. place < length list.now.items) }
    ensures found { IfSome result (λ place. remove list.now.items place ≡ filter (other_zero timer) list.now.items) }
    ensures none { IfNone result (list.now.items ≡ filter (other_zero timer) list.now.items) }
{
    for place in 0..list.len() {
        if is_at(list, place, timer) {
            return Some(place);
        }
    }
    None
}

/// Says whether a timer's is at a place.
fn is_at(list: &LongList<(Timer, u64)>, place: usize, timer: Timer) -> bool
    requires { place < length list.now.items }
    ensures { (one : Timer × ℕ) → slice_get list.now.items place ≡ Some one → result ≡ same_timer timer one.0 }
{
    match list.get(place) {
        Some(one) => timer == one.0,
        None => unreachable!(),
    }
}
