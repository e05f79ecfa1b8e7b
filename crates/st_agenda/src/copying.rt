//! Copies of what waits, made while the queue's cursor walks over it.
ghost use Rattle.std.specs.Prelude.{◌≡◌, ◌≤◌, ◌<◌, ◌+◌, ◌++◌, length, take, vec_capacity, IfOk};
ghost use Rattle.std.specs.Option.{option_to_list};
ghost use Rattle.st_agenda.specs.Agenda.{item_of, items_in};
ghost use Rattle.st_agenda.specs.Slots.{number_of};
ghost use Rattle.st_agenda.specs.Waiting.{places_of, postponed_of, slot_numbers};

use crate::Item;
use crate::queued::Queued;
use crate::uncounted_queue::UncountedQueue;
use st_events::{CopyContent, Event, PlainList};
use st_timeouts::Timeouts;
use std::alloc::{AllocError, Global};

/// Copies of what waits in a queue of which the first so many slots were received, and the numbers of those before
/// its cursor, which are postponed. The cursor walks over all and comes back, also where no memory is found.
pub(crate) fn copy_queue<C: Drop, K: CopyContent<C>>(
    queue: &mut UncountedQueue<Queued<C>>,
    received: usize,
    timeouts: &Timeouts<C>,
    alloc: Global,
    copier: &K,
) -> Result<(PlainList<Item<C>>, PlainList<u64>), AllocError>
    ensures items { IfOk result (λ copies. copies.0 ≡ items_in timeouts.now.listed (places_of received queue.old.items)) }
    ensures postponed { IfOk result (λ copies. copies.1 ≡ postponed_of queue.old.cursor queue.old.items) }
    ensures unchanged { queue.new ≡ queue.old }
{
    let before = queue.before();
    let mut numbers = Vec::with_capacity(alloc, before)?;
    queue.rewind();
    let items = copy_items(queue, received, timeouts, alloc, copier);
    queue.rewind();
    pass(queue, before, &mut numbers);
    Ok((items?, PlainList::from(numbers)))
}

/// Copies of what waits, from the start of the queue to its end, where the cursor stands then.
fn copy_items<C: Drop, K: CopyContent<C>>(
    queue: &mut UncountedQueue<Queued<C>>,
    received: usize,
    timeouts: &Timeouts<C>,
    alloc: Global,
    copier: &K,
) -> Result<PlainList<Item<C>>, AllocError>
    requires start { queue.old.cursor ≡ 0 }
    ensures items { IfOk result (λ items. items ≡ items_in timeouts.now.listed (places_of received queue.old.items)) }
    ensures slots { queue.new.items ≡ queue.old.items }
    ensures staged { queue.new.staged ≡ queue.old.staged }
{
    let mut items = Vec::with_capacity(alloc, queue.len())?;
    while let Some(slot) = queue.peek() {
        let was_received = queue.before() < received;
        let copy = copy_slot(slot, was_received, timeouts, alloc, copier)?;
        push_any(copy, &mut items);
        let _passed = queue.skip();
    }
    Ok(PlainList::from(items))
}

/// Puts an item at the end of a list where there is one, in memory that was reserved.
fn push_any<T: Drop>(item: Option<T>, items: &mut Vec<T>)
    requires reserved { length items.old.items < vec_capacity items.old }
    ensures pushed { items.new.items ≡ items.old.items ++ option_to_list item }
    ensures capacity { vec_capacity items.new ≡ vec_capacity items.old }
{
    if let Some(item) = item {
        items.push_reserved(item);
    }
}

/// A copy of what a slot is read as: an expiry whose time-out runs no more is nothing.
fn copy_slot<C, K: CopyContent<C>>(
    slot: &Queued<C>,
    was_received: bool,
    timeouts: &Timeouts<C>,
    alloc: Global,
    copier: &K,
) -> Result<Option<Item<C>>, AllocError>
    ensures { IfOk result (λ item. item ≡ item_of timeouts.now.listed was_received slot.now) }
{
    match slot {
        Queued::Event(event) => {
            let event = copy_event(event, alloc, copier)?;
            if was_received {
                Ok(Some(Item::Received(event)))
            } else {
                Ok(Some(Item::Posted(event)))
            }
        }
        Queued::Expiry(timer, number) => {
            if !was_received && timeouts.is_live(*timer, *number) {
                Ok(Some(Item::Expiry(*timer)))
            } else {
                Ok(None)
            }
        }
    }
}

/// A copy of an event; a copier copies the content.
fn copy_event<C, K: CopyContent<C>>(
    event: &Event<C>,
    alloc: Global,
    copier: &K,
) -> Result<Event<C>, AllocError>
    ensures { IfOk result (λ copy. copy ≡ event.now) }
{
    let content = copier.copy_of(alloc, &event.content)?;
    Ok(Event {
        number: event.number,
        kind: event.kind,
        content,
    })
}

/// Moves the cursor from the start past so many slots, and lists their numbers, in memory that was reserved.
fn pass<C>(queue: &mut UncountedQueue<Queued<C>>, count: usize, numbers: &mut Vec<u64>)
    requires start { queue.old.cursor ≡ 0 }
    requires within { count ≤ length queue.old.items }
    requires reserved { length numbers.old.items + count ≤ vec_capacity numbers.old }
    ensures passed { queue.new ≡ record queue.old { cursor = count } }
    ensures numbers { numbers.new.items ≡ numbers.old.items ++ slot_numbers (take count queue.old.items) }
{
    for _place in 0..count {
        let Some(slot) = queue.peek() else {
            unreachable!()
        };
        numbers.push_reserved(number_of(slot));
        let _passed = queue.skip();
    }
}

/// The number of an event, or of the event that an expiry will be.
fn number_of<C>(slot: &Queued<C>) -> u64
    ensures { result ≡ number_of slot.now }
{
    match slot {
        Queued::Event(event) => event.number,
        Queued::Expiry(_, number) => *number,
    }
}
