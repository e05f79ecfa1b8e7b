//! The running time-outs: in the order in which they were set, and those that wait in the order in which they are due.
ghost use Rattle.std.specs.Prelude.{◌≡◌, ◌+◌, ◌<◌, ◌≤◌, ◌^◌, ◌⊎◌, true, Some, [], length, map, max, is_some, option_copied, if◌then◌else◌, IsOk, IfOk, OnOk, OnErr};
ghost use Rattle.std.specs.Option.{option_map};
ghost use Rattle.st_timeouts.specs.Entries.{listed_of};
ghost use Rattle.st_timeouts.specs.Keys.{key_at};
ghost use Rattle.st_timeouts.specs.Order.{with_key};
ghost use Rattle.st_timeouts.specs.Running.{is_zero, first_zero_of, moment_of, due_after, in_order, OneEach};
ghost use Rattle.st_timeouts.specs.Timeouts.{all_of, name_of, shown, begun, content_of, runs, with_set, with_cancelled, with_updated, without_listed, expiring, first_of, with_expired, with_first_expired, next_due_of, live, with_taken};
ghost use Rattle.st_timeouts.specs.Waiting.{waiting_of, due_keys, zeros_of};
ghost use Rattle.st_timeouts.specs.Zeros.{with_zero};

use crate::entry::Entry;
use crate::key::Key;
use crate::moment::Moment;
use crate::order::Order;
use crate::zeros::Zeros;
use crate::{Due, Running};
use st_events::{CopyContent, PlainList, Timer};
use st_steps::Steps;
use st_timer_map::TimerMap;
use std::alloc::{AllocError, Global};
use std::marker::Model;
use std::sync::ledger::Ledger;

/// The running time-outs of one machine, each timer at most once, in the order in which they were set.
///
/// Only `reserve` and `list` take memory: a `set` uses the place of the timer's old time-out, or one
/// that was reserved.
///
/// Manual: `timeout_action()`.
#[derive(Drop)]
pub struct Timeouts<C> {
    entries: TimerMap<Entry<C>>,
    // Those that are due at once.
    zeros: Zeros,
    // Those that wait for a moment.
    order: Order,
}

impl<C> Model for Timeouts<C> {
    ghost use Rattle.st_timeouts.specs.Timeouts.{Timeouts};
    ghost use Rattle.st_timeouts.specs.Entries.{listed_of, IsSound};

    ghost Value = { Timeouts C };

    ghost view = { λ timeouts. record { listed = listed_of timeouts.entries.rows; reserved = timeouts.entries.reserved } };

    ghost invariant = { λ timeouts. IsSound timeouts.entries timeouts.zeros timeouts.order };
}

impl<C> Timeouts<C> {
    /// No time-out, and none reserved for. It takes no memory.
    ///
    /// Manual: `timeout_action()`.
    pub fn new(alloc: Global) -> Timeouts<C>
        ensures { result ≡ record { listed = []; reserved = 0 } }
    {
        Timeouts {
            entries: TimerMap::new(alloc),
            zeros: Zeros::new(alloc),
            order: Order::new(alloc),
        }
    }

    /// Shows the first time-out that is due at once: its timer and its event's number.
    ///
    /// Manual: `event_timeout()`, `state_timeout()`, `generic_timeout()`, on a time of zero.
    pub fn first_zero(&self) -> Option<(Timer, u64)>
        ensures { result ≡ option_map name_of (first_zero_of (all_of self.now.listed)) }
    {
        self.zeros.first()
    }

    /// Says how many time-outs are due by a moment, in milliseconds, and not handed out yet. It looks at these and at
    /// no more than one other: a step is a look.
    ///
    /// Ours: docs/TRANSITIONS.md, Time-outs.
    pub fn count_due<L: Ledger>(&self, now: u64, steps: &mut Steps<L>) -> usize
        ensures count { result ≡ length (expiring now self.now.listed) }
        ensures looks { steps.new ≤ steps.old + result + 1 }
    {
        self.order.count_due(now, steps)
    }

    /// Hands out the first expiry that is due by a moment, in milliseconds: by the moment at which it
    /// is due, then by number. Each is handed out once. It looks at one.
    ///
    /// Ours: docs/TRANSITIONS.md, Time-outs.
    pub fn next_expiry<L: Ledger>(&mut self, now: u64, steps: &mut Steps<L>) -> Option<(Timer, u64)>
        ensures expiry { result ≡ option_map name_of (first_of (expiring now self.old.listed)) }
        ensures handed_out { self.new ≡ with_first_expired (expiring now self.old.listed) self.old }
        ensures looks { steps.new ≤ steps.old + 1 }
    {
        let first = self.order.first()?;
        if !first.moment.reached(now, steps) {
            return None;
        }
        self.take_due()
    }

    /// Hands out the first expiry of those that wait for a moment, whether it has come or not: by the moment at which
    /// it is due, then by number. Each is handed out once. It looks at none: who has counted those that are due knows
    /// that it has come.
    ///
    /// Ours: docs/TRANSITIONS.md, Time-outs.
    pub fn take_due(&mut self) -> Option<(Timer, u64)>
        ensures expiry { result ≡ option_map name_of (first_of (in_order (waiting_of self.old.listed))) }
        ensures handed_out { self.new ≡ with_first_expired (in_order (waiting_of self.old.listed)) self.old }
    {
        let first = self.order.take()?;
        self.entries.mark(first.timer);
        Some((first.timer, first.number))
    }

    /// The moment, in milliseconds, at which the next expiry is due that was not handed out yet.
    ///
    /// Ours: docs/TRANSITIONS.md, Time-outs.
    pub fn next_due(&self) -> Option<u64>
        ensures { result ≡ next_due_of self.now.listed }
    {
        let first = self.order.first()?;
        Some(first.moment.milliseconds())
    }

    /// The content of the time-out of a timer whose event has this number, if it runs.
    ///
    /// Manual: `timeout_action()`, on the content of the event.
    pub fn content(&self, timer: Timer, number: u64) -> Option<&C>
        ensures { option_copied result ≡ option_map (λ one. one.content) (live timer number self.now.listed) }
    {
        let entry = self.entries.get(timer)?;
        if entry.number != number {
            return None;
        }
        Some(&entry.content)
    }

    /// Says whether the time-out of a timer whose event has this number runs.
    ///
    /// Ours: docs/TRANSITIONS.md, Time-outs.
    pub fn is_live(&self, timer: Timer, number: u64) -> bool
        ensures { result ≡ is_some (live timer number self.now.listed) }
    {
        self.content(timer, number).is_some()
    }

    /// Says whether a timer runs.
    ///
    /// Manual: `timeout_update_action()`, on a time-out that does not run.
    pub fn runs(&self, timer: Timer) -> bool
        ensures { result ≡ runs timer self.now.listed }
    {
        self.entries.get(timer).is_some()
    }

    /// The running time-outs in the order in which they were set: timer, number of the event, and when it is
    /// due. Where memory is wanted and there is none, nothing is listed.
    ///
    /// Manual: `timeout_action()`; ours: docs/TRANSITIONS.md, Time-outs.
    pub fn list(&self) -> Result<PlainList<(Timer, u64, Due)>, AllocError>
        ensures { IfOk result (λ list. list ≡ map shown self.now.listed) }
    {
        Ok(PlainList::from(self.entries.list()?))
    }
}

impl<C: Drop> Timeouts<C> {
    /// A copy of the running time-outs, in the order in which they were set; a copier copies their contents.
    ///
    /// Where memory is wanted and there is none, nothing is copied. Ours: docs/DECISIONS.md, Snapshots.
    pub fn copy<K: CopyContent<C>>(&self, copier: &K) -> Result<PlainList<Running<C>>, AllocError>
        ensures { IfOk result (λ copy. copy ≡ all_of self.now.listed) }
    {
        let rows = self.entries.list()?;
        let alloc = *rows.allocator();
        copy_all(&self.entries, &rows, alloc, copier)
    }

    /// Reserves memory, so that `count` time-outs can be set that do not run. Where so much is reserved, it
    /// takes no memory. Where memory is wanted and there is none, nothing changes.
    ///
    /// Ours: docs/DECISIONS.md, Choices in the code.
    pub fn reserve(&mut self, count: usize) -> Result<(), AllocError>
        ensures reserved { OnOk result (self.new ≡ record self.old { reserved = max self.old.reserved count }) }

        ensures enough { count ≤ self.old.reserved → IsOk result }
        ensures unchanged { OnErr result (self.new ≡ self.old) }
    {
        if count <= self.entries.reserved() {
            return Ok(());
        }
        let total = self.entries.len().checked_add(count).ok_or(AllocError)?;
        self.zeros.reserve(total.saturating_sub(self.zeros.len()))?;
        self.order.reserve(total.saturating_sub(self.order.len()))?;
        self.entries.reserve(count)
    }

    /// Sets a timer at a moment, for so many milliseconds: it is due that long after the moment, or at once
    /// where there are none. It goes behind all others. The timer's old time-out runs no more,
    /// and its content comes back.
    ///
    /// Manual: `event_timeout()`, `state_timeout()`, `generic_timeout()`.
    pub fn set(&mut self, timer: Timer, time: u32, content: C, number: u64, now: u64) -> Option<C>
        requires moment { now < 2 ^ 63 }
        requires reserved { (runs timer self.old.listed ≡ true) ⊎ (0 < self.old.reserved) }
        ensures returned { result ≡ content_of timer self.old.listed }
        ensures set { self.new ≡ with_set self.old (begun timer time content number now) }
    {
        forget(&self.entries, &mut self.zeros, &mut self.order, timer); // before it waits anew
        let due = due_after(time, now);
        line_up(&mut self.zeros, &mut self.order, timer, number, due);
        let old = self.entries.put(
            timer,
            Entry {
                number,
                due,
                content,
                expired: false,
            },
        );
        content_in(old)
    }

    /// Stops a timer: its time-out runs no more, and its content comes back.
    ///
    /// Manual: `generic_timeout()`, `state_timeout()`, on `infinity`; `timeout_cancel_action()`.
    pub fn cancel(&mut self, timer: Timer) -> Option<C>
        ensures returned { result ≡ content_of timer self.old.listed }
        ensures cancelled { self.new ≡ with_cancelled self.old timer }
    {
        forget(&self.entries, &mut self.zeros, &mut self.order, timer);
        content_in(self.entries.remove(timer))
    }

    /// Gives the time-out of a timer that runs another content, and hands the old one out. Its number, the moment at
    /// which it is due, its place, and whether its expiry was handed out stay. It takes no memory.
    ///
    /// Manual: `timeout_update_action()`.
    pub fn update(&mut self, timer: Timer, content: C) -> C
        requires { runs timer self.old.listed ≡ true }
        ensures returned { Some result ≡ content_of timer self.old.listed }
        ensures updated { self.new ≡ with_updated self.old timer content }
    {
        let Some(entry) = self.entries.get(timer) else {
            unreachable!()
        };
        let entry = Entry {
            number: entry.number,
            due: entry.due,
            content,
            expired: entry.expired,
        };
        match content_in(self.entries.replace(timer, entry)) {
            Some(old) => old,
            None => unreachable!(),
        }
    }

    /// Takes the time-out of a timer whose event has this number out, if it runs, and hands its content
    /// over. Another one of this timer stays.
    ///
    /// Ours: docs/TRANSITIONS.md, Time-outs.
    pub fn take(&mut self, timer: Timer, number: u64) -> Option<C>
        ensures content { result ≡ option_map (λ one. one.content) (live timer number self.old.listed) }
        ensures taken { self.new ≡ with_taken self.old timer number }
    {
        if self.is_live(timer, number) {
            self.cancel(timer)
        } else {
            None
        }
    }
}

/// A copy of each time-out, where these are their rows in order.
fn copy_all<C: Drop, K: CopyContent<C>>(
    entries: &TimerMap<Entry<C>>,
    rows: &[(Timer, u64, Due)],
    alloc: Global,
    copier: &K,
) -> Result<PlainList<Running<C>>, AllocError>
    requires one_each { OneEach (all_of (listed_of entries.now.rows)) }
    requires rows { rows.now ≡ map shown (listed_of entries.now.rows) }
    ensures { IfOk result (λ copy. copy ≡ all_of (listed_of entries.now.rows)) }
{
    let mut copies = Vec::with_capacity(alloc, rows.len())?;
    for row in rows {
        let timer = row.0;
        let Some(entry) = entries.get(timer) else {
            unreachable!()
        };
        let copy = entry.copy(timer, alloc, copier)?;
        copies.push_reserved(copy);
    }
    Ok(PlainList::from(copies))
}

/// Takes a timer out of those that wait.
fn forget<C>(entries: &TimerMap<Entry<C>>, zeros: &mut Zeros, order: &mut Order, timer: Timer)
    requires one_each { OneEach (all_of (listed_of entries.now.rows)) }
    requires zeros { zeros.old.items ≡ zeros_of (listed_of entries.now.rows) }
    requires keys { order.old.keys ≡ due_keys (listed_of entries.now.rows) }
    ensures zeros { zeros.new.items ≡ zeros_of (without_listed timer (listed_of entries.now.rows)) }
    ensures keys { order.new.keys ≡ due_keys (without_listed timer (listed_of entries.now.rows)) }
    ensures zeros_places { zeros.new.reserved + length zeros.new.items ≡ zeros.old.reserved + length zeros.old.items }
    ensures keys_places { order.new.reserved + length order.new.keys ≡ order.old.reserved + length order.old.keys }
{
    let Some(entry) = entries.get(timer) else {
        return;
    };
    match entry.due {
        Due::Zero => zeros.forget(timer),
        Due::At(moment) => {
            if !entry.expired {
                order.forget(&key(timer, entry.number, moment));
            }
        }
    }
}

/// Puts a timer that is set behind those that wait as it does.
fn line_up(zeros: &mut Zeros, order: &mut Order, timer: Timer, number: u64, due: Due)
    requires zeros_reserved { 0 < zeros.old.reserved }
    requires keys_reserved { 0 < order.old.reserved }
    ensures zeros { zeros.new ≡ (if is_zero due then with_zero zeros.old timer number else zeros.old) }
    ensures keys { order.new ≡ (if is_zero due then order.old else with_key order.old (key_at timer number (moment_of due))) }
{
    match due {
        Due::Zero => zeros.put(timer, number),
        Due::At(moment) => order.put(key(timer, number, moment)),
    }
}

/// Where a time-out stands that is due at a moment, in milliseconds.
fn key(timer: Timer, number: u64, moment: u64) -> Key
    ensures { result ≡ key_at timer number moment }
{
    Key {
        moment: Moment::new(moment),
        number,
        timer,
    }
}

/// When a time-out is due that is set for so many milliseconds at a moment.
fn due_after(time: u32, now: u64) -> Due
    requires { now < 2 ^ 63 }
    ensures { result ≡ due_after time now }
{
    if time == 0 {
        Due::Zero
    } else {
        Due::At(now + u64::from(time))
    }
}

/// The content of an entry, where there is one.
fn content_in<C>(entry: Option<Entry<C>>) -> Option<C>
    ensures { result ≡ option_map (λ entry. entry.content) entry }
{
    let Entry {
        number: _,
        due: _,
        content,
        expired: _,
    } = entry?;
    Some(content)
}
