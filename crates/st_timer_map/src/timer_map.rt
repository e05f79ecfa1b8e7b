//! The values by timer.
ghost use Rattle.std.specs.Prelude.{◌≡◌, ◌+◌, ◌*◌, ◌<◌, ◌≤◌, ◌⊎◌, true, [], length, map, max, is_some, option_copied, IsOk, IfOk, OnOk, OnErr};
ghost use Rattle.st_timer_map.specs.Rows.{value_of, with_put, with_removed, with_marked};

use crate::Mark;
use crate::bucket::Bucket;
use crate::index::Index;
use crate::slots::{
    list_rows, make_room, mark_at, place_of, put_last, replace_at, reserve_places, room_for,
    slot_at, take_out,
};
use st_events::Timer;
use std::alloc::{AllocError, Global};
use std::marker::Model;

/// Values by timer, each timer at most once, in the order in which they were last put.
///
/// Only `reserve` and `list` take memory, and no call but `list` walks over all values; where the slots are used
/// up, a `put` closes the holes that removed values left, and at least half of the slots are then free.
#[derive(Drop)]
pub struct TimerMap<V> {
    // A removed value leaves a hole, and one that is put goes to the end.
    slots: Vec<Option<Bucket<V>>>,
    index: Index,
    // How many slots are filled.
    live: usize,
    // How many timers can be put that are not there, without memory.
    ready: usize,
}

impl<V> Model for TimerMap<V> {
    ghost use Rattle.std.specs.Vec.{vec_capacity};
    ghost use Rattle.st_timer_map.specs.Rows.{Rows};
    ghost use Rattle.st_timer_map.specs.Slots.{rows_of};
    ghost use Rattle.st_timer_map.specs.Sound.{IsSound};

    ghost Value = { Rows V };

    ghost view = { λ kept. record { rows = rows_of kept.slots.items; reserved = kept.ready } };

    ghost invariant = { λ kept. IsSound kept.slots.items kept.index kept.live kept.ready (vec_capacity kept.slots) };
}

impl<V> TimerMap<V> {
    /// No value, and none reserved for. It takes no memory.
    pub fn new(alloc: Global) -> TimerMap<V>
        ensures { result ≡ record { rows = []; reserved = 0 } }
    {
        TimerMap {
            slots: Vec::new(alloc),
            index: Index::new(),
            live: 0,
            ready: 0,
        }
    }

    /// How many timers have a value. It takes a few steps.
    pub fn len(&self) -> usize
        ensures { result ≡ length self.now.rows }
    {
        self.live
    }

    /// How many timers can be put that have no value, without memory. It takes a few steps.
    pub fn reserved(&self) -> usize
        ensures { result ≡ self.now.reserved }
    {
        self.ready
    }

    /// The value of a timer, if it has one. It takes a few steps.
    pub fn get(&self, timer: Timer) -> Option<&V>
        ensures { option_copied result ≡ value_of timer self.now.rows }
    {
        let place = place_of(&self.index, &self.slots, timer);
        let slot = slot_at(&self.slots, place)?;
        Some(&slot.value)
    }
}

impl<V: Drop> TimerMap<V> {
    /// Reserves memory, so that `count` timers can be put that are not there. Where so much is reserved, it takes no
    /// memory and a few steps; else the slots at least double where they are too few, and are moved. Where memory is
    /// wanted and there is none, nothing changes.
    pub fn reserve(&mut self, count: usize) -> Result<(), AllocError>
        ensures reserved { OnOk result (self.new ≡ record self.old { reserved = max self.old.reserved count }) }

        ensures enough { count ≤ self.old.reserved → IsOk result }
        ensures unchanged { OnErr result (self.new ≡ self.old) }
    {
        if count <= self.ready {
            return Ok(());
        }
        let alloc = *self.slots.allocator();
        let capacity = room_for(self.slots.capacity(), self.live, count)?;
        reserve_places(&self.slots, &mut self.index, alloc, capacity, count)?;
        self.slots
            .reserve_exact(capacity.saturating_sub(self.slots.len()))?;
        self.ready = count;
        Ok(())
    }

    /// Puts a value for a timer, behind all others. The timer's old value comes back. It cannot fail, and takes a few
    /// steps on the average: where the slots are used up it closes the holes, and at least half of the slots are free
    /// then.
    pub fn put(&mut self, timer: Timer, value: V) -> Option<V>
        requires { (is_some (value_of timer self.old.rows) ≡ true) ⊎ (0 < self.old.reserved) }
        ensures returned { result ≡ value_of timer self.old.rows }
        ensures put { self.new ≡ with_put self.old timer value }
    {
        make_room(&mut self.slots, &mut self.index);
        let old = put_last(&mut self.slots, &mut self.index, timer, value);
        if old.is_none() {
            self.ready -= 1;
            self.live += 1;
        }
        old
    }

    /// Gives a timer another value in its place, if it has one; the old one comes back. The order stays. It takes a few
    /// steps.
    pub fn replace(&mut self, timer: Timer, value: V) -> Option<V>
        ensures returned { result ≡ value_of timer self.old.rows }
        ensures replaced { self.new ≡ with_marked (λ old. value) self.old timer }
    {
        let place = place_of(&self.index, &self.slots, timer);
        replace_at(&mut self.slots, place, value)
    }

    /// Takes the value of a timer out, if it has one, and hands it over. The others keep their order. It takes a few
    /// steps.
    pub fn remove(&mut self, timer: Timer) -> Option<V>
        ensures returned { result ≡ value_of timer self.old.rows }
        ensures removed { self.new ≡ with_removed self.old timer }
    {
        let old = take_out(&mut self.slots, &mut self.index, timer);
        if old.is_some() {
            self.live -= 1;
        }
        old
    }
}

impl<V: Mark> TimerMap<V> {
    /// Marks the value of a timer, if it has one. It takes a few steps.
    pub fn mark(&mut self, timer: Timer)
        ensures { self.new ≡ with_marked V.marked self.old timer }
    {
        let place = place_of(&self.index, &self.slots, timer);
        mark_at(&mut self.slots, place);
    }

    /// The rows of all values in their order. Where memory is wanted and there is none, nothing is listed. It walks
    /// over all values.
    pub fn list(&self) -> Result<Vec<V::Row>, AllocError>
        ensures { IfOk result (λ list. list.items ≡ map (λ row. V.row_of row.0 row.1) self.now.rows) }
    {
        let alloc = *self.slots.allocator();
        list_rows(&self.slots, alloc, self.live)
    }
}
