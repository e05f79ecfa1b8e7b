//! The slots in which values are kept, and what ties the index to them.
ghost use Rattle.std.specs.Prelude.{◌≡◌, ◌+◌, ◌*◌, ◌⊎◌, [], ◌∷◌, ◌++◌, ◌<◌, ◌≤◌, ℕ, nat_eq, true, is_some, length, map, filter, if◌then◌else◌, option_copied, IfSome, IfOk, OnOk, OnErr};
ghost use Rattle.std.specs.List.{position, slice_set};
ghost use Rattle.std.specs.Vec.{vec_len, vec_capacity};
ghost use Rattle.std.specs.HashMap.{get, spare};
ghost use Rattle.st_events.specs.declared.timer.Timer.{Timer};
ghost use Rattle.st_events.specs.declared.timer.Timer.TheVariants.{Named};
ghost use Rattle.st_events.specs.Timers.{same_timer};
ghost use Rattle.st_timer_map.specs.Rows.{OnceEach, value_of, without_timer};
ghost use Rattle.st_timer_map.specs.Slots.{is_for, rows_of, place_of, with_hole, slot_at, value_in, marked_at};
ghost use Rattle.st_timer_map.specs.Index.{knows, place_in, HasRoom, IsTied};

use crate::Mark;
use crate::bucket::Bucket;
use crate::index::Index;
use st_events::Timer;
use std::alloc::{AllocError, Global};
use std::collections::HashMap;
use std::mem::replace;

/// With room for no more slots than these, names are found by a walk over the slots.
const WALKED: usize = 16;

/// The least number of slots, where there are any.
const LEAST: usize = 4;

/// The place of a timer's slot.
pub(crate) fn place_of<V>(index: &Index, slots: &[Option<Bucket<V>>], timer: Timer) -> Option<usize>
    requires { IsTied index.now slots.now }
    ensures { result ≡ place_of timer slots.now }
{
    if index.knows(timer) {
        index.place(timer)
    } else {
        walk(slots, timer)
    }
}

/// The place of a timer's slot, by a walk over all of them.
fn walk<V>(slots: &[Option<Bucket<V>>], timer: Timer) -> Option<usize>
    ensures { result ≡ position (is_for timer) slots.now }
{
    slots.iter().position(|slot| is_for(slot, timer))
}

/// Says whether it is the slot of this timer.
fn is_for<V>(slot: &Option<Bucket<V>>, timer: Timer) -> bool
    ensures { result ≡ is_for timer slot.now }
{
    match slot {
        None => false,
        Some(slot) => timer == slot.timer,
    }
}

/// The slot at a place, if one is there.
pub(crate) fn slot_at<V>(slots: &[Option<Bucket<V>>], place: Option<usize>) -> Option<&Bucket<V>>
    ensures { option_copied result ≡ slot_at slots.now place }
{
    slots.get(place?)?.as_ref()
}

/// Takes the value at a place out, and leaves a hole there.
fn take_at<V>(slots: &mut Vec<Option<Bucket<V>>>, place: Option<usize>) -> Option<V>
    requires { IfSome place (λ place. place < vec_len slots.old) }
    ensures items { slots.new.items ≡ with_hole slots.old.items place }
    ensures value { result ≡ value_in (slot_at slots.old.items place) }
    ensures capacity { vec_capacity slots.new ≡ vec_capacity slots.old }
{
    let Bucket { timer: _, value } = slots[place?].take()?;
    Some(value)
}

/// Puts a value for a timer behind all others, and hands its old value over. The old slot becomes a hole.
pub(crate) fn put_last<V>(
    slots: &mut Vec<Option<Bucket<V>>>,
    index: &mut Index,
    timer: Timer,
    value: V,
) -> Option<V>
    requires once_each { OnceEach (rows_of slots.old.items) }
    requires tied { IsTied index.old slots.old.items }
    requires fits { vec_len slots.old < vec_capacity slots.old }
    requires room { (is_some (value_of timer (rows_of slots.old.items)) ≡ true) ⊎ HasRoom index.old 1 }
    ensures returned { result ≡ value_of timer (rows_of slots.old.items) }
    ensures rows { rows_of slots.new.items ≡ without_timer timer (rows_of slots.old.items) ++ (timer, value) ∷ [] }
    ensures tied { IsTied index.new slots.new.items }
    ensures capacity { vec_capacity slots.new ≡ vec_capacity slots.old }
    ensures again { is_some result ≡ true → (count : ℕ) → HasRoom index.old count → HasRoom index.new count }
    ensures room { (count : ℕ) → HasRoom index.old (count + 1) → HasRoom index.new count }
{
    let place = place_of(index, slots, timer);
    let old = take_at(slots, place);
    let last = slots.len();
    slots.push_reserved(Some(Bucket { timer, value }));
    index.write(timer, last);
    old
}

/// Takes the value of a timer out, if it has one. Its slot becomes a hole.
pub(crate) fn take_out<V>(
    slots: &mut Vec<Option<Bucket<V>>>,
    index: &mut Index,
    timer: Timer,
) -> Option<V>
    requires once_each { OnceEach (rows_of slots.old.items) }
    requires tied { IsTied index.old slots.old.items }
    ensures returned { result ≡ value_of timer (rows_of slots.old.items) }
    ensures rows { rows_of slots.new.items ≡ without_timer timer (rows_of slots.old.items) }
    ensures tied { IsTied index.new slots.new.items }
    ensures capacity { vec_capacity slots.new ≡ vec_capacity slots.old }
    ensures room { (count : ℕ) → HasRoom index.old count → HasRoom index.new count }
{
    let place = place_of(index, slots, timer);
    let old = take_at(slots, place);
    index.forget(timer);
    old
}

/// Makes room for a slot at the end: where there is none, the holes are closed.
pub(crate) fn make_room<V: Drop>(slots: &mut Vec<Option<Bucket<V>>>, index: &mut Index)
    requires once_each { OnceEach (rows_of slots.old.items) }
    requires tied { IsTied index.old slots.old.items }
    requires fits { length (rows_of slots.old.items) < vec_capacity slots.old }
    ensures rows { rows_of slots.new.items ≡ rows_of slots.old.items }
    ensures tied { IsTied index.new slots.new.items }
    ensures fits { vec_len slots.new < vec_capacity slots.new }
    ensures capacity { vec_capacity slots.new ≡ vec_capacity slots.old }
    ensures room { (count : ℕ) → HasRoom index.old count → HasRoom index.new count }
{
    if slots.len() < slots.capacity() {
        return;
    }
    close_holes(slots, index);
}

/// Closes the holes. The others keep their order, and the index tells their places.
fn close_holes<V: Drop>(slots: &mut Vec<Option<Bucket<V>>>, index: &mut Index)
    requires once_each { OnceEach (rows_of slots.old.items) }
    requires tied { IsTied index.old slots.old.items }
    ensures items { slots.new.items ≡ filter is_some slots.old.items }
    ensures capacity { vec_capacity slots.new ≡ vec_capacity slots.old }
    ensures tied { IsTied index.new slots.new.items }
    ensures room { (count : ℕ) → HasRoom index.old count → HasRoom index.new count }
{
    slots.retain(|slot| slot.is_some());
    write_places(slots, index);
}

/// Writes the places of all timers anew.
fn write_places<V>(slots: &[Option<Bucket<V>>], index: &mut Index)
    requires once_each { OnceEach (rows_of slots.now) }
    requires places { (timer : Timer) → knows index.old timer ≡ true → is_some (place_in index.old timer) ≡ is_some (place_of timer slots.now) }
    ensures tied { IsTied index.new slots.now }
    ensures room { (count : ℕ) → HasRoom index.old count → HasRoom index.new count }
{
    for (place, slot) in slots.iter().enumerate() {
        if let Some(slot) = slot {
            index.write(slot.timer, place);
        }
    }
}

/// Makes room in the index for so many timers more. Where the slots are to be more than are walked over and the
/// index has no map for names, it gets one.
pub(crate) fn reserve_places<V>(
    slots: &[Option<Bucket<V>>],
    index: &mut Index,
    alloc: Global,
    capacity: usize,
    count: usize,
) -> Result<(), AllocError>
    requires once_each { OnceEach (rows_of slots.now) }
    requires tied { IsTied index.old slots.now }
    ensures tied { IsTied index.new slots.now }
    ensures room { OnOk result (HasRoom index.new count) }
    ensures kept { OnErr result ((room : ℕ) → HasRoom index.old room → HasRoom index.new room) }
{
    if capacity > WALKED && !index.has_names() {
        let named = places_by_name(slots, alloc, count)?;
        index.learn(Box::new(alloc, named)?);
        return Ok(());
    }
    index.reserve(count)
}

/// The places of all names, with room for so many more.
fn places_by_name<V>(
    slots: &[Option<Bucket<V>>],
    alloc: Global,
    count: usize,
) -> Result<HashMap<u32, usize>, AllocError>
    requires { OnceEach (rows_of slots.now) }
    ensures places { IfOk result (λ named. (name : ℕ) → get nat_eq named name ≡ place_of (Named name) slots.now) }
    ensures room { IfOk result (λ named. count ≤ spare named) }
{
    let mut named = HashMap::with_capacity(alloc, slots.len().saturating_add(count))?;
    for (place, slot) in slots.iter().enumerate() {
        if let Some(slot) = slot {
            write_if_named(&mut named, slot.timer, place)?;
        }
    }
    named.reserve(count)?;
    Ok(named)
}

/// Writes the place of a timer, where it has a name.
fn write_if_named(
    named: &mut HashMap<u32, usize>,
    timer: Timer,
    place: usize,
) -> Result<(), AllocError>
    ensures { OnOk result ((name : ℕ) → get nat_eq named.new name ≡ (if same_timer timer (Named name) then Some place else get nat_eq named.old name)) }
{
    if let Timer::Named(name) = timer {
        named.insert(name, place)?;
    }
    Ok(())
}

/// So many slots are wanted for the timers that are there and for `count` more: twice as many as the timers,
/// four at least, and where there are not so many, twice as many as there are.
pub(crate) fn room_for(capacity: usize, live: usize, count: usize) -> Result<usize, AllocError>
    ensures { IfOk result (λ room. 2 * (live + count) ≤ room) }
{
    let timers = live.checked_add(count).ok_or(AllocError)?;
    let wanted = timers.checked_mul(2).ok_or(AllocError)?;
    if wanted <= capacity {
        return Ok(capacity);
    }
    Ok(wanted.max(capacity.saturating_mul(2)).max(LEAST))
}

/// Marks the value at a place.
pub(crate) fn mark_at<V: Mark>(slots: &mut Vec<Option<Bucket<V>>>, place: Option<usize>)
    requires { IfSome place (λ place. place < vec_len slots.old) }
    ensures items { slots.new.items ≡ marked_at V.marked slots.old.items place }
    ensures capacity { vec_capacity slots.new ≡ vec_capacity slots.old }
{
    if let Some(place) = place {
        if let Some(slot) = &mut slots[place] {
            slot.value.mark();
        }
    }
}

/// Puts a value in the place of another, which comes back. A hole stays one.
pub(crate) fn replace_at<V: Drop>(
    slots: &mut Vec<Option<Bucket<V>>>,
    place: Option<usize>,
    value: V,
) -> Option<V>
    requires { IfSome place (λ place. place < vec_len slots.old) }
    ensures returned { result ≡ value_in (slot_at slots.old.items place) }
    ensures items { slots.new.items ≡ marked_at (λ old. value) slots.old.items place }
    ensures capacity { vec_capacity slots.new ≡ vec_capacity slots.old }
{
    let place = place?;
    match &mut slots[place] {
        Some(slot) => Some(replace(&mut slot.value, value)),
        None => None,
    }
}

/// What is listed of all values, in their order. There are so many.
pub(crate) fn list_rows<V: Mark>(
    slots: &[Option<Bucket<V>>],
    alloc: Global,
    live: usize,
) -> Result<Vec<V::Row>, AllocError>
    requires { live ≡ length (rows_of slots.now) }
    ensures { IfOk result (λ list. list.items ≡ map (λ row. V.row_of row.0 row.1) (rows_of slots.now)) }
{
    let mut rows = Vec::with_capacity(alloc, live)?;
    for slot in slots {
        if let Some(slot) = slot {
            rows.push_reserved(slot.value.row(slot.timer));
        }
    }
    Ok(rows)
}
