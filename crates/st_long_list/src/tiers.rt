//! The tiers of a list, and how elements pass from one to the next.
ghost use Rattle.std.specs.Prelude.{◌≡◌, ◌+◌, ◌/◌, ◌<◌, ◌≤◌, length, get_or, insert, OnOk};
ghost use Rattle.std.specs.Vec.{vec_capacity};
ghost use Rattle.std.specs.VecDeque.{deque_capacity};
ghost use Rattle.st_long_list.specs.Tiers.{items_of, lengths_of, rooms_of, passed_up, passed_down, ArePacked, AreSame, AreNoLess, HaveRoom, HaveGap};

use std::alloc::AllocError;
use std::collections::VecDeque;

/// How many elements a tier has, but the last.
pub(crate) const TIER: usize = 512;

/// How many elements the first memory of a tier is for, where no more are asked for.
const FEW: usize = 4;

/// Passes the last element of a tier to the front of the next, which has memory for it.
fn pass_up<V>(tiers: &mut Vec<VecDeque<V>>, tier: usize)
    requires next { tier + 1 < length tiers.old.items }
    requires some { 0 < get_or (lengths_of tiers.old.items) tier 0 }
    requires room { get_or (lengths_of tiers.old.items) (tier + 1) 0 < get_or (rooms_of tiers.old.items) (tier + 1) 0 }
    ensures items { items_of tiers.new.items ≡ items_of tiers.old.items }
    ensures lengths { lengths_of tiers.new.items ≡ passed_up (lengths_of tiers.old.items) tier }
    ensures rooms { rooms_of tiers.new.items ≡ rooms_of tiers.old.items }
{
    if let Some(value) = tiers[tier].pop_back() {
        tiers[tier + 1].push_front_reserved(value);
    }
}

/// Passes the first element of the next tier to the back of a tier, which has memory for it.
fn pass_down<V>(tiers: &mut Vec<VecDeque<V>>, tier: usize)
    requires next { tier + 1 < length tiers.old.items }
    requires some { 0 < get_or (lengths_of tiers.old.items) (tier + 1) 0 }
    requires room { get_or (lengths_of tiers.old.items) tier 0 < get_or (rooms_of tiers.old.items) tier 0 }
    ensures items { items_of tiers.new.items ≡ items_of tiers.old.items }
    ensures lengths { lengths_of tiers.new.items ≡ passed_down (lengths_of tiers.old.items) tier }
    ensures rooms { rooms_of tiers.new.items ≡ rooms_of tiers.old.items }
{
    if let Some(value) = tiers[tier + 1].pop_front() {
        tiers[tier].push_back_reserved(value);
    }
}

/// Makes a place free in a tier, where there are so many elements: from it on, each tier passes its last element to the
/// next, up to the tier in which the list ends.
pub(crate) fn free_place<V>(tiers: &mut Vec<VecDeque<V>>, len: usize, tier: usize)
    requires tier { tier ≤ len / 512 }
    requires packed { ArePacked len (lengths_of tiers.old.items) }
    requires room { HaveRoom (len + 1) (rooms_of tiers.old.items) }
    ensures items { items_of tiers.new.items ≡ items_of tiers.old.items }
    ensures rooms { rooms_of tiers.new.items ≡ rooms_of tiers.old.items }
    ensures gap { HaveGap len tier (lengths_of tiers.new.items) }
{
    let mut free = len / TIER;
    while free > tier {
        free -= 1;
        pass_up(tiers, free);
    }
}

/// Fills a place that is free in a tier, where so many elements are left: from it on, each tier takes the first element
/// of the next, up to the tier in which the list ends.
pub(crate) fn fill_place<V>(tiers: &mut Vec<VecDeque<V>>, len: usize, tier: usize)
    requires tier { tier ≤ len / 512 }
    requires gap { HaveGap len tier (lengths_of tiers.old.items) }
    requires room { HaveRoom (len + 1) (rooms_of tiers.old.items) }
    ensures items { items_of tiers.new.items ≡ items_of tiers.old.items }
    ensures rooms { rooms_of tiers.new.items ≡ rooms_of tiers.old.items }
    ensures packed { ArePacked len (lengths_of tiers.new.items) }
{
    let mut free = tier;
    while free < len / TIER {
        pass_down(tiers, free);
        free += 1;
    }
}

/// Puts a value at a place of a tier, which has memory for it. It cannot fail.
pub(crate) fn put<V>(tier: &mut VecDeque<V>, place: usize, value: V)
    requires place { place ≤ length tier.old.items }
    requires room { length tier.old.items < deque_capacity tier.old }
    ensures items { tier.new.items ≡ insert tier.old.items place value }
    ensures room { deque_capacity tier.old ≤ deque_capacity tier.new }
{
    match tier.insert(place, value) {
        Ok(()) => {}
        Err(_) => unreachable!(),
    }
}

/// Takes memory, so that the tiers have room for so many elements. They have room for some, of which there are fewer.
///
/// The memory of the row of tiers comes first, so that a count for which no memory is large enough is refused at once.
/// Where memory is wanted and there is none, the tiers keep what they took by then.
pub(crate) fn enlarge<V>(
    tiers: &mut Vec<VecDeque<V>>,
    had: usize,
    wanted: usize,
) -> Result<(), AllocError>
    requires more { had < wanted }
    requires room { HaveRoom had (rooms_of tiers.old.items) }
    ensures items { items_of tiers.new.items ≡ items_of tiers.old.items }
    ensures lengths { AreSame (lengths_of tiers.old.items) (lengths_of tiers.new.items) }
    ensures rooms { AreNoLess (rooms_of tiers.old.items) (rooms_of tiers.new.items) }
    ensures room { OnOk result (HaveRoom wanted (rooms_of tiers.new.items)) }
{
    let end = (wanted - 1) / TIER + 1;
    tiers.reserve(end.saturating_sub(tiers.len()))?;
    let mut tier = had / TIER;
    while tier < end {
        enlarge_tier(tiers, tier, TIER.min(wanted - TIER * tier))?;
        tier += 1;
    }
    Ok(())
}

/// Takes memory, so that a tier has room for so many elements. It may be the one behind the last.
fn enlarge_tier<V>(
    tiers: &mut Vec<VecDeque<V>>,
    tier: usize,
    wanted: usize,
) -> Result<(), AllocError>
    requires tier { tier ≤ length tiers.old.items }
    requires row { tier < vec_capacity tiers.old }
    requires wanted { wanted ≤ 512 }
    ensures items { items_of tiers.new.items ≡ items_of tiers.old.items }
    ensures lengths { AreSame (lengths_of tiers.old.items) (lengths_of tiers.new.items) }
    ensures rooms { AreNoLess (rooms_of tiers.old.items) (rooms_of tiers.new.items) }
    ensures row { vec_capacity tiers.new ≡ vec_capacity tiers.old }
    ensures there { tier < length tiers.new.items }
    ensures room { OnOk result (wanted ≤ get_or (rooms_of tiers.new.items) tier 0) }
{
    add_tier(tiers, tier);
    widen(&mut tiers[tier], wanted)
}

/// Puts a tier behind the others, which has no element and no memory, where there is none at this place.
fn add_tier<V>(tiers: &mut Vec<VecDeque<V>>, tier: usize)
    requires tier { tier ≤ length tiers.old.items }
    requires row { tier < vec_capacity tiers.old }
    ensures items { items_of tiers.new.items ≡ items_of tiers.old.items }
    ensures lengths { AreSame (lengths_of tiers.old.items) (lengths_of tiers.new.items) }
    ensures rooms { AreNoLess (rooms_of tiers.old.items) (rooms_of tiers.new.items) }
    ensures row { vec_capacity tiers.new ≡ vec_capacity tiers.old }
    ensures there { tier < length tiers.new.items }
{
    if tiers.len() <= tier {
        let alloc = *tiers.allocator();
        tiers.push_reserved(VecDeque::new(alloc));
    }
}

/// Takes memory, so that a tier has room for so many elements: for at least twice as many as before, so that one that
/// grows step by step seldom moves, and for no more than a whole tier.
fn widen<V>(tier: &mut VecDeque<V>, wanted: usize) -> Result<(), AllocError>
    requires { wanted ≤ 512 }
    ensures items { tier.new.items ≡ tier.old.items }
    ensures room { deque_capacity tier.old ≤ deque_capacity tier.new }
    ensures enough { OnOk result (wanted ≤ deque_capacity tier.new) }
{
    let had = tier.capacity();
    if had < wanted {
        let room = wanted.max(2 * had).max(FEW).min(TIER);
        tier.reserve_exact(room - tier.len())?;
    }
    Ok(())
}
