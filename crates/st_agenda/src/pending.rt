//! The events that wait: which comes next, what becomes of it, and where others come in.
ghost use Rattle.std.specs.Prelude.{◌≡◌, ◌+◌, ◌-◌, ◌<◌, ◌≤◌, ◌^◌, true, false, [], ◌∷◌, ◌++◌, Some, IfOk, IfErr, OnOk, OnErr, is_some, length, map, max, option_copied};
ghost use Rattle.st_actions.specs.Plan.{inserts_of, sends_of};
ghost use Rattle.st_actions.specs.Taking.{all_settings_of};
ghost use Rattle.st_agenda.specs.declared.queued.Queued.TheVariants as queued;
ghost use Rattle.st_agenda.specs.Agenda.{items_in};
ghost use Rattle.st_agenda.specs.Items.{has};
ghost use Rattle.st_agenda.specs.Slots.{inserted_slots, is_event, content_in};
ghost use Rattle.st_agenda.specs.Waiting.{Seen, Unseen, IsOrdered, first_seen, next_of, next_number_of, with_next_seen, without_slot, put_in, inserted_at, place_numbers};

use crate::Item;
use crate::copying::copy_queue;
use crate::queued::Queued;
use crate::uncounted_queue::UncountedQueue;
use st_actions::take_insert;
use st_events::{Actions, CopyContent, Event, Insert, Kind, PlainList, Timer};
use st_timeouts::Timeouts;
use std::alloc::{AllocError, AllocFailed, Global};
use std::marker::Model;

/// What waits, in a queue. The events before its cursor are postponed, and the first so many slots
/// were received. Numbers are given here.
#[derive(Drop)]
pub(crate) struct Pending<C> {
    queue: UncountedQueue<Queued<C>>,
    // How many slots were received. The cursor stands among them or behind the last one.
    received: usize,
    // The number that the next event gets.
    next_number: u64,
}

impl<C> Model for Pending<C> {
    ghost use Rattle.st_agenda.specs.Waiting.{Waiting, places_of, postponed_of, IsSound};

    ghost Value = { Waiting C };

    ghost view = { λ pending. record {
      items = places_of pending.received pending.queue.items;
      postponed = postponed_of pending.queue.cursor pending.queue.items;
      next_number = pending.next_number;
      staged = pending.queue.staged;
    } };

    ghost invariant = { λ pending. IsSound pending.queue pending.received pending.next_number };
}

impl<C> Pending<C> {
    /// No event, and the number that the first one gets. It takes no memory.
    pub(crate) fn new(alloc: Global, first: u64) -> Pending<C>
        requires { first ≤ 2 ^ 63 }
        ensures { result ≡ record { items = []; postponed = []; next_number = first; staged = 0 } }
    {
        Pending {
            queue: UncountedQueue::new(alloc),
            received: 0,
            next_number: first,
        }
    }

    /// The next slot: an event, or an expiry.
    pub(crate) fn peek(&self) -> Option<&Queued<C>>
        ensures { option_copied result ≡ next_of self.now.postponed self.now.items }
    {
        self.queue.peek()
    }

    /// Says whether the next slot was received already.
    pub(crate) fn was_received(&self) -> bool
        ensures { result ≡ is_some (first_seen self.now.postponed self.now.items) }
    {
        self.queue.before() < self.received
    }

    /// How many slots there are.
    pub(crate) fn len(&self) -> usize
        ensures { result ≡ length self.now.items }
    {
        self.queue.len()
    }

    /// The number that the next event gets.
    pub(crate) fn next_number(&self) -> u64
        ensures next_number { result ≡ self.now.next_number }
        ensures bounded { result ≤ 2 ^ 63 }
    {
        self.next_number
    }

    /// A law, which does nothing: what waits is in order.
    pub(crate) fn in_order(&self)
        ensures { IsOrdered self.now }
    {
        let _ = &self.queue;
    }

    /// No event is postponed any more.
    pub(crate) fn retry(&mut self)
        ensures { self.new ≡ record self.old { postponed = [] } }
    {
        self.queue.rewind();
    }

    /// The next slot is received.
    pub(crate) fn receive(&mut self, number: u64)
        requires { next_number_of self.old.postponed self.old.items ≡ Some number }
        ensures { self.new ≡ record self.old { items = with_next_seen self.old.postponed self.old.items } }
    {
        let _number = number;
        prove!(self.queue.before() < self.queue.len());
        self.received = self.received.max(self.queue.before() + 1);
    }

    /// A number is taken by the event of a time-out.
    pub(crate) fn take_number(&mut self) -> u64
        requires { self.old.next_number < 2 ^ 63 }
        ensures number { result ≡ self.old.next_number }
        ensures taken { self.new ≡ record self.old { next_number = self.old.next_number + 1 } }
    {
        let number = self.next_number;
        self.next_number += 1;
        number
    }
}

impl<C: Drop> Pending<C> {
    /// Copies of what waits, and of the numbers of the events that are postponed; a copier copies the contents. An
    /// expiry whose time-out runs no more is none.
    ///
    /// Nothing changes, also where memory is wanted and there is none.
    pub(crate) fn copy<K: CopyContent<C>>(
        &mut self,
        timeouts: &Timeouts<C>,
        alloc: Global,
        copier: &K,
    ) -> Result<(PlainList<Item<C>>, PlainList<u64>), AllocError>
        ensures items { IfOk result (λ copies. copies.0 ≡ items_in timeouts.now.listed self.old.items) }
        ensures postponed { IfOk result (λ copies. copies.1 ≡ self.old.postponed) }
        ensures unchanged { self.new ≡ self.old }
    {
        copy_queue(&mut self.queue, self.received, timeouts, alloc, copier)
    }

    /// Puts a posted event behind all others, and answers its number.
    pub(crate) fn push(&mut self, kind: Kind, content: C) -> Result<u64, AllocFailed<C>>
        requires { self.old.next_number < 2 ^ 63 }
        ensures number { IfOk result (λ number. number ≡ self.old.next_number) }
        ensures pushed { OnOk result (self.new ≡ record self.old {
          items = self.old.items ++ Unseen (queued.Event (record { number = self.old.next_number; kind = kind; content = content })) ∷ [];
          next_number = self.old.next_number + 1;
        }) }

        ensures unchanged { OnErr result (self.new ≡ self.old) }
        ensures value_returned { IfErr result (λ failed. failed.value ≡ content) }
    {
        let number = self.next_number;
        let event = Event {
            number,
            kind,
            content,
        };
        match self.queue.push_back(Queued::Event(event)) {
            Ok(()) => {
                self.next_number += 1;
                Ok(number)
            }
            Err(failed) => Err(AllocFailed {
                value: content_of(failed.value),
            }),
        }
    }

    /// Reserves memory, so that `count` slots can come in later and want none.
    pub(crate) fn stage(&mut self, count: usize) -> Result<(), AllocError>
        ensures staged { OnOk result (self.new ≡ record self.old { staged = max self.old.staged count }) }

        ensures unchanged { OnErr result (self.new ≡ self.old) }
    {
        self.queue.stage(count)
    }

    /// Takes the events to be inserted, of which there are so many, out of a list of actions, and puts them in before the
    /// first one that is not postponed, in order, with the next numbers. They are received. It takes no memory.
    pub(crate) fn insert(&mut self, count: usize, actions: &mut Actions<C>)
        requires count { count ≡ length (inserts_of actions.old) }
        requires reserved { count ≤ self.old.staged }
        requires numbers { self.old.next_number + count ≤ 2 ^ 63 }
        ensures inserted { self.new ≡ record self.old {
          items = put_in self.old.postponed (map Seen (inserted_slots self.old.next_number (inserts_of actions.old))) self.old.items;
          next_number = self.old.next_number + length (inserts_of actions.old);
          staged = self.old.staged - length (inserts_of actions.old);
        } }
        ensures same_settings { all_settings_of actions.new ≡ all_settings_of actions.old }
        ensures same_sends { sends_of actions.new ≡ sends_of actions.old }
    {
        prove!(self.queue.before() <= self.queue.len());
        insert_at_cursor(&mut self.queue, count, actions, self.next_number);
        prove!(count <= self.queue.len() - self.received);
        self.received += count;
        self.next_number += count as u64;
    }

    /// Puts the event of a time-out in before the first one that is not postponed. It is received, and
    /// has its number already. It takes no memory.
    pub(crate) fn put_in(&mut self, event: Event<C>)
        requires reserved { 0 < self.old.staged }
        requires free { has (place_numbers self.old.items) event.number ≡ false }
        requires below { event.number < self.old.next_number }
        ensures { self.new ≡ record self.old {
          items = put_in self.old.postponed (Seen (queued.Event event) ∷ []) self.old.items;
          staged = self.old.staged - 1;
        } }
    {
        self.queue.insert_staged(Queued::Event(event));
        prove!(self.received < self.queue.len());
        self.received += 1;
    }

    /// Puts an expiry behind all others. It takes no memory.
    pub(crate) fn push_expiry(&mut self, timer: Timer, number: u64)
        requires reserved { 0 < self.old.staged }
        requires free { has (place_numbers self.old.items) number ≡ false }
        requires below { number < self.old.next_number }
        ensures { self.new ≡ record self.old {
          items = self.old.items ++ Unseen (queued.Expiry timer number) ∷ [];
          staged = self.old.staged - 1;
        } }
    {
        self.queue.push_staged(Queued::Expiry(timer, number));
    }

    /// The next slot is received, and its event postponed.
    pub(crate) fn postpone(&mut self, number: u64)
        requires { next_number_of self.old.postponed self.old.items ≡ Some number }
        ensures { self.new ≡ record self.old {
          items = with_next_seen self.old.postponed self.old.items;
          postponed = self.old.postponed ++ number ∷ [];
        } }
    {
        let _passed = self.queue.skip();
        self.received = self.received.max(self.queue.before());
    }

    /// The next slot leaves.
    pub(crate) fn finish(&mut self, number: u64)
        requires { next_number_of self.old.postponed self.old.items ≡ Some number }
        ensures { self.new ≡ record self.old { items = without_slot number (with_next_seen self.old.postponed self.old.items) } }
    {
        let _finished = self.queue.remove();
        if self.queue.before() < self.received {
            self.received -= 1;
        }
    }
}

/// Takes the events to be inserted, of which there are so many, out of a list of actions, from its end on, and puts them
/// in at the cursor, in order, with numbers from this one on. No action before the first of them is looked at.
fn insert_at_cursor<C: Drop>(
    queue: &mut UncountedQueue<Queued<C>>,
    count: usize,
    actions: &mut Actions<C>,
    first: u64,
)
    requires within { queue.old.cursor ≤ length queue.old.items }
    requires count { count ≡ length (inserts_of actions.old) }
    requires reserved { count ≤ queue.old.staged }
    requires numbers { first + count ≤ 2 ^ 63 }
    ensures inserted { queue.new ≡ record queue.old {
      items = inserted_at queue.old.items queue.old.cursor (inserted_slots first (inserts_of actions.old));
      staged = queue.old.staged - length (inserts_of actions.old);
    } }
    ensures same_settings { all_settings_of actions.new ≡ all_settings_of actions.old }
    ensures same_sends { sends_of actions.new ≡ sends_of actions.old }
{
    let mut left = count;
    let mut index = actions.len();
    while left > 0 {
        index -= 1;
        if let Some(insert) = take_insert(actions, index) {
            left -= 1;
            let Insert { kind, content } = insert;
            queue.insert_staged(Queued::Event(Event {
                number: first + left as u64,
                kind,
                content,
            }));
        }
    }
}

/// The content of an event that could not be kept.
fn content_of<C: Drop>(kept: Queued<C>) -> C
    requires { is_event kept ≡ true }
    ensures { Some result ≡ content_in kept }
{
    match kept {
        Queued::Event(event) => {
            let Event {
                number: _,
                kind: _,
                content,
            } = event;
            content
        }
        Queued::Expiry(..) => unreachable!(),
    }
}
