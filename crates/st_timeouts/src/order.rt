//! The time-outs that wait for a moment, in the order in which they are due.
ghost use Rattle.std.specs.Prelude.{◌≡◌, ◌+◌, ◌-◌, ◌<◌, ◌≤◌, [], length, max, take, drop, reverse, slice_get, Some, IsOk, IfSome, IfNone, OnOk, OnErr};
ghost use Rattle.std.specs.List.{filter, remove};
ghost use Rattle.st_timeouts.specs.Keys.{AllBefore, NoneBefore, InOrder};
ghost use Rattle.st_timeouts.specs.Order.{has_come, is_other, NoneElse, OnceEach, with_key, first_key, other_keys};

use crate::key::Key;
use st_long_list::LongList;
use st_steps::Steps;
use std::alloc::{AllocError, Global};
use std::marker::Model;
use std::sync::ledger::Ledger;

/// The time-outs that wait for a moment and whose expiry was not handed out, in the order in which they are due.
#[derive(Drop)]
pub(crate) struct Order {
    // From the last that is due to the first, so that the first leaves from the end.
    keys: LongList<Key>,
}

impl Model for Order {
    ghost use Rattle.std.specs.Prelude.{reverse};
    ghost use Rattle.st_timeouts.specs.Keys.{InOrder};
    ghost use Rattle.st_timeouts.specs.Order.{Order};

    ghost Value = { Order };

    ghost view = { λ order. record { keys = reverse order.keys.items; reserved = order.keys.reserved } };

    ghost invariant = { λ order. InOrder (reverse order.keys.items) };
}

impl Order {
    /// None waits, and none is reserved for. It takes no memory.
    pub(crate) fn new(alloc: Global) -> Order
        ensures { result ≡ record { keys = []; reserved = 0 } }
    {
        Order {
            keys: LongList::new(alloc),
        }
    }

    /// Makes places for so many more. Where there are as many, it takes no memory; refused, it changes nothing.
    pub(crate) fn reserve(&mut self, count: usize) -> Result<(), AllocError>
        ensures reserved { OnOk result (self.new ≡ record self.old { reserved = max self.old.reserved count }) }

        ensures enough { count ≤ self.old.reserved → IsOk result }
        ensures unchanged { OnErr result (self.new ≡ self.old) }
    {
        self.keys.reserve(count)
    }

    /// How many wait.
    pub(crate) fn len(&self) -> usize
        ensures { result ≡ length self.now.keys }
    {
        self.keys.len()
    }

    /// Puts one behind those that are due before it.
    pub(crate) fn put(&mut self, key: Key)
        requires reserved { 0 < self.old.reserved }
        ensures { self.new ≡ with_key self.old key }
    {
        let place = place_for(&self.keys, &key);
        self.keys.insert(place, key);
    }

    /// Takes out where the timer of this one stands.
    pub(crate) fn forget(&mut self, key: &Key)
        requires none_else { NoneElse key.now self.old.keys }
        requires once_each { OnceEach self.old.keys }
        ensures keys { self.new.keys ≡ filter (is_other key.now.timer) self.old.keys }
        ensures places { self.new.reserved + length self.new.keys ≡ self.old.reserved + length self.old.keys }
    {
        if let Some(place) = place_of(&self.keys, key) {
            self.keys.remove(place);
        }
    }

    /// How many have come at a moment, in milliseconds. It looks at these, and at one more.
    pub(crate) fn count_due<L: Ledger>(&self, now: u64, steps: &mut Steps<L>) -> usize
        ensures count { result ≡ length (filter (has_come now) self.now.keys) }
        ensures looks { steps.new ≤ steps.old + result + 1 }
    {
        let mut place = self.keys.len();
        while place > 0 {
            if !key_at(&self.keys, place - 1).moment.reached(now, steps) {
                break;
            }
            place -= 1;
        }
        self.keys.len() - place
    }

    /// The first that is due.
    pub(crate) fn first(&self) -> Option<Key>
        ensures { result ≡ first_key self.now.keys }
    {
        let count = self.keys.len();
        if count == 0 {
            return None;
        }
        Some(key_at(&self.keys, count - 1))
    }

    /// Takes the first that is due out.
    pub(crate) fn take(&mut self) -> Option<Key>
        ensures first { result ≡ first_key self.old.keys }
        ensures others { self.new.keys ≡ other_keys self.old.keys }
        ensures places { self.new.reserved + length self.new.keys ≡ self.old.reserved + length self.old.keys }
    {
        let count = self.keys.len();
        if count == 0 {
            return None;
        }
        let first = key_at(&self.keys, count - 1);
        self.keys.remove(count - 1);
        Some(first)
    }
}

/// The place behind which all come before a key, of a list from the last to the first.
fn place_for(keys: &LongList<Key>, key: &Key) -> usize
    requires in_order { InOrder (reverse keys.now.items) }
    ensures within { result ≤ length keys.now.items }
    ensures behind { NoneBefore key.now (take result keys.now.items) }
    ensures before { AllBefore key.now (drop result keys.now.items) }
{
    let mut low = 0;
    let mut high = keys.len();
    while low < high {
        let middle = low + (high - low) / 2;
        if key_at(keys, middle).is_before(key) {
            high = middle;
        } else {
            low = middle + 1;
        }
    }
    low
}

/// The place where the timer of a key stands: of those that do not come before it, the last are looked at first.
fn place_of(keys: &LongList<Key>, key: &Key) -> Option<usize>
    requires in_order { InOrder (reverse keys.now.items) }
    requires none_else { NoneElse key.now (reverse keys.now.items) }
    requires once_each { OnceEach (reverse keys.now.items) }
    ensures within { IfSome result (λ place. place < length keys.now.items) }
    ensures found { IfSome result (λ place. reverse (remove keys.now.items place) ≡ filter (is_other key.now.timer) (reverse keys.now.items)) }
    ensures none { IfNone result (reverse keys.now.items ≡ filter (is_other key.now.timer) (reverse keys.now.items)) }
{
    let mut place = place_for(keys, key);
    while place > 0 {
        place -= 1;
        if key_at(keys, place).is_for(key.timer) {
            return Some(place);
        }
    }
    None
}

/// The one at a place.
fn key_at(keys: &LongList<Key>, place: usize) -> Key
    requires { place < length keys.now.items }
    ensures { slice_get keys.now.items place ≡ Some result }
{
    match keys.get(place) {
        Some(key) => *key,
        None => unreachable!(),
    }
}
