//! The list, and the calls that read and change it.
ghost use Rattle.std.specs.Prelude.{◌≡◌, ◌↔◌, ◌+◌, ◌-◌, ◌<◌, ◌≤◌, [], ◌++◌, length, max, slice_get, option_copied, option_to_list, IsTrue, IsOk, IfNone, OnSome, OnOk, OnErr};
ghost use Rattle.st_long_list.specs.Places.{with_inserted, with_removed};

use crate::tiers::{TIER, enlarge, fill_place, free_place, put};
use std::alloc::{AllocError, Global};
use std::collections::VecDeque;
use std::marker::Model;

/// A list of elements, with places reserved for more.
///
/// An element can come in at any place, and leave from any. The elements lie in tiers of 512: a call that puts one in or
/// takes one out moves elements of one tier, and one element of each tier behind it. So its cost grows with the list's
/// length divided by 512; at the end of the list it does not grow at all, nor does that of a look at a place.
///
/// Only `reserve` takes memory: `insert` uses a place that is reserved, and the place of an element that is taken out is
/// reserved again. No memory is given back before the list is dropped.
#[derive(Drop)]
pub struct LongList<V> {
    // Each but the last that has any has `TIER` elements.
    tiers: Vec<VecDeque<V>>,
    // How many elements there are.
    len: usize,
    // How many places there are, with those that are taken.
    places: usize,
}

impl<V> Model for LongList<V> {
    ghost use Rattle.std.specs.Prelude.{◌-◌};
    ghost use Rattle.st_long_list.specs.Places.{Places};
    ghost use Rattle.st_long_list.specs.Tiers.{items_of, IsTiered};

    ghost Value = { Places V };

    ghost view = { λ list. record { items = items_of list.tiers.items; reserved = list.places - list.len } };

    ghost invariant = { λ list. IsTiered list.tiers.items list.len list.places };
}

impl<V> LongList<V> {
    /// Makes a list with no element and no place reserved. It takes no memory.
    pub fn new(alloc: Global) -> LongList<V>
        ensures { result ≡ record { items = []; reserved = 0 } }
    {
        LongList {
            tiers: Vec::new(alloc),
            len: 0,
            places: 0,
        }
    }

    /// Says how many elements there are.
    pub fn len(&self) -> usize
        ensures { result ≡ length self.now.items }
    {
        self.len
    }

    /// Says whether there is no element.
    pub fn is_empty(&self) -> bool
        ensures { IsTrue result ↔ (self.now.items ≡ []) }
    {
        self.len() == 0
    }

    /// Shows the element at a place, from 0 on, or `None` where there is no such place. The cost does not grow with the
    /// list.
    pub fn get(&self, place: usize) -> Option<&V>
        ensures { option_copied result ≡ slice_get self.now.items place }
    {
        let tier = self.tiers.get(place / TIER)?;
        tier.get(place % TIER)
    }

    /// Shows the last element, or `None` where there is none. The cost does not grow with the list.
    pub fn last(&self) -> Option<&V>
        ensures { option_copied result ≡ slice_get self.now.items (length self.now.items - 1) }
    {
        self.get(self.len().saturating_sub(1))
    }

    /// Reserves memory, so that `count` elements can come in by calls that cannot fail. Where so many places are
    /// reserved, it takes no memory. One who reserves a place at a time pays little for each: a tier takes memory for
    /// twice as many elements as before, up to 512.
    ///
    /// Where memory is wanted and there is none, nothing changes that can be read.
    pub fn reserve(&mut self, count: usize) -> Result<(), AllocError>
        ensures reserved { OnOk result (self.new ≡ record self.old { reserved = max self.old.reserved count }) }

        ensures enough { count ≤ self.old.reserved → IsOk result }
        ensures unchanged { OnErr result (self.new ≡ self.old) }
    {
        if self.places - self.len < count {
            let wanted = self.len.checked_add(count).ok_or(AllocError)?;
            enlarge(&mut self.tiers, self.places, wanted)?;
            self.places = wanted;
        }
        Ok(())
    }

    /// Puts a value at a place, up to the one behind the last element. What stood there and behind it comes after it.
    ///
    /// It uses a place that is reserved, takes no memory and cannot fail. Its cost grows with the number of elements
    /// that come after it, divided by 512.
    pub fn insert(&mut self, place: usize, value: V)
        requires place { place ≤ length self.old.items }
        requires reserved { 0 < self.old.reserved }
        ensures { self.new ≡ with_inserted self.old place value }
    {
        let tier = place / TIER;
        free_place(&mut self.tiers, self.len, tier);
        put(&mut self.tiers[tier], place % TIER, value);
        self.len += 1;
    }

    /// Takes the element at a place out. What stood behind it moves up, and one place more is reserved. Its cost grows
    /// with the number of elements that come after it, divided by 512.
    ///
    /// `None`: there is no such place, and nothing changes.
    pub fn remove(&mut self, place: usize) -> Option<V>
        ensures value { result ≡ slice_get self.old.items place }
        ensures removed { OnSome result (self.new ≡ with_removed self.old place) }
        ensures unchanged { IfNone result (self.new ≡ self.old) }
    {
        if self.len <= place {
            return None;
        }
        let tier = place / TIER;
        let value = self.tiers[tier].remove(place % TIER);
        self.len -= 1;
        fill_place(&mut self.tiers, self.len, tier);
        value
    }

    /// Takes the last element out, and one place more is reserved. The cost does not grow with the list.
    ///
    /// `None`: there is no element, and nothing changes.
    pub fn pop(&mut self) -> Option<V>
        ensures value { result ≡ slice_get self.old.items (length self.old.items - 1) }
        ensures items { self.old.items ≡ self.new.items ++ option_to_list result }
        ensures reserved { self.new.reserved ≡ self.old.reserved + length (option_to_list result) }
        ensures unchanged { IfNone result (self.new ≡ self.old) }
    {
        let place = self.len().saturating_sub(1);
        self.remove(place)
    }
}
