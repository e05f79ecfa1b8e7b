//! What waits and the time-outs that run, as one: which event comes next, and what a transition makes
//! of them.
ghost use Rattle.std.specs.Prelude.{◌≡◌, ◌+◌, ◌-◌, ◌<◌, ◌≤◌, ◌^◌, [], ◌∷◌, ◌++◌, true, false, slice_get, Some, IfOk, IfErr, OnOk, OnErr, IsOk, ℕ, length, max, is_some};
ghost use Rattle.std.specs.Option.{option_map, unwrap_or};
ghost use Rattle.st_actions.specs.Counted.{starts_in};
ghost use Rattle.st_actions.specs.Plan.{inserts_of, sends_of};
ghost use Rattle.st_actions.specs.Taking.{all_settings_of};
ghost use Rattle.st_timeouts.specs.Running.{running_of};
ghost use Rattle.st_timeouts.specs.Timeouts.{name_of, live};
ghost use Rattle.st_agenda.specs.Choice as choice;
ghost use Rattle.st_agenda.specs.Choice.{timer_taken};
ghost use Rattle.st_agenda.specs.Items.{events_in, first_received};
ghost use Rattle.st_agenda.specs.declared.item.Item.TheVariants.{Posted};
ghost use Rattle.st_events.specs.Timers.{AskedOnce};
ghost use Rattle.st_events.specs.declared.asked.Asked.TheVariants.{Update};
ghost use Rattle.st_events.specs.declared.kind.Kind.TheVariants.{Timeout};
ghost use Rattle.st_events.specs.declared.time.Time.TheVariants.{After};
ghost use Rattle.st_agenda.specs.Timing.{taken_by, numbers_taken, begins_anew, is_cancelled, is_taken, expiring_by, next_due_among};
ghost use Rattle.st_agenda.specs.Waiting.{next_of};
ghost use Rattle.st_agenda.specs.Agenda.{Agrees, IsAlive, items_in, choice_in, next_in, zero_in, received_in, cancelled_in, disposed_in, retried_in, received_and_retried_in, inserted_in, restarted_in, updated_in, asked_in, set_in, all_set_in, shown_timers, dead_at, with_first_expiry, all_but_first, with_all_expired, running_on};

use crate::Schedule;
use crate::pending::Pending;
use crate::queued::Queued;
use st_actions::take_setting;
use st_events::{
    Action, Actions, Asked, CopyContent, Event, Kind, PlainList, Setting, Time, Timer,
};
use st_steps::Steps;
use st_timeouts::{Due, Timeouts};
use std::alloc::{AllocError, AllocFailed, Global};
use std::marker::Model;
use std::sync::ledger::Ledger;

/// What waits, in a queue, and the time-outs that run. An expiry whose time-out runs no more stays in
/// the queue until it comes to the front; it is never the next slot.
///
/// Manual: the introduction, on the event queue; ours: docs/ARCHITECTURE.md, The way of one event.
#[derive(Drop)]
pub struct Agenda<C> {
    pending: Pending<C>,
    timeouts: Timeouts<C>,
    // How many expiries stand in the queue, also of time-outs that run no more.
    expiries: usize,
}

impl<C> Model for Agenda<C> {
    ghost use Rattle.st_agenda.specs.Agenda.{Agenda, schedule_of, IsKept};

    ghost Value = { Agenda C };

    ghost view = { λ agenda. record {
      schedule = schedule_of agenda.pending agenda.timeouts.listed;
      staged = agenda.pending.staged;
      reserved = agenda.timeouts.reserved;
    } };

    ghost invariant = { λ agenda. IsKept agenda.pending agenda.timeouts.listed agenda.expiries };
}

impl<C> Agenda<C> {
    /// Nothing waits and no time-out runs, and the number that the first event gets. It takes no memory.
    ///
    /// Manual: the introduction, on the event queue.
    pub fn new(alloc: Global, first: u64) -> Agenda<C>
        requires { first ≤ 2 ^ 63 }
        ensures { result ≡ record {
          schedule = record { pending = []; postponed = []; running = []; next_number = first };
          staged = 0;
          reserved = 0;
        } }
    {
        Agenda {
            pending: Pending::new(alloc, first),
            timeouts: Timeouts::new(alloc),
            expiries: 0,
        }
    }

    /// The number, the kind and the content of the event that a turn handles next.
    ///
    /// Manual: `transition_option()`, the steps on enqueued events, on zero time-outs and on receiving.
    pub fn next(&self) -> Option<(u64, Kind, &C)>
        ensures { option_map (λ seen. record { number = seen.0; kind = seen.1; content = seen.2.now }) result ≡ next_in self.now.schedule }
    {
        if let Some((timer, number)) = self.next_zero() {
            return seen_timeout(&self.timeouts, timer, number);
        }
        match self.pending.peek() {
            None => None,
            Some(Queued::Event(event)) => Some((event.number, event.kind, &event.content)),
            Some(Queued::Expiry(timer, number)) => seen_timeout(&self.timeouts, *timer, *number),
        }
    }

    /// Says whether there is such an event.
    ///
    /// Ours: docs/TRANSITIONS.md, Next event.
    pub fn has_next(&self) -> bool
        ensures { result ≡ is_some (next_in self.now.schedule) }
    {
        if let Some(_) = self.next_zero() {
            return true;
        }
        match self.pending.peek() {
            None => false,
            Some(Queued::Event(_)) => true,
            Some(Queued::Expiry(_, _)) => true,
        }
    }

    /// The time-out that comes next because it is due at once: where no received event is left, the first
    /// one.
    fn next_zero(&self) -> Option<(Timer, u64)>
        ensures { result ≡ option_map name_of (zero_in self.now.schedule) }
    {
        if self.pending.was_received() {
            None
        } else {
            self.timeouts.first_zero()
        }
    }

    /// How many events wait.
    ///
    /// Ours: docs/TRANSITIONS.md, Next event.
    pub fn waiting(&self) -> usize
        ensures { result ≡ events_in self.now.schedule.pending }
    {
        self.pending.len() - self.expiries
    }

    /// The number that the next event gets.
    ///
    /// Ours: docs/DECISIONS.md, Numbers of events.
    pub fn next_number(&self) -> u64
        ensures next_number { result ≡ self.now.schedule.next_number }
        ensures bounded { result ≤ 2 ^ 63 }
    {
        self.pending.next_number()
    }

    /// How many numbers of events the updates among the settings of a list of actions take, where the machine's state
    /// changes or not: one each, where its timer does not run when the settings come to be done. That which is taken up
    /// runs no more then, nor that of the event, nor, at a state change, that of the state. It takes no memory.
    ///
    /// Manual: `timeout_update_action()`.
    pub fn numbers_of_updates(&self, actions: &Actions<C>, changed: bool) -> u64
        ensures { starts_in (all_settings_of actions.now) + result ≡ numbers_taken (running_on changed self.now.schedule) (all_settings_of actions.now) }
    {
        let taken = self.taken_up();
        let mut numbers = 0;
        let mut index = actions.len();
        while index > 0 {
            index -= 1;
            if self.begins_anew(actions, index, taken, changed) {
                numbers += 1;
            }
        }
        numbers
    }

    /// Says whether there is an update at an index whose timer does not run when settings come to be done, where this
    /// timer's time-out is taken up.
    fn begins_anew(
        &self,
        actions: &Actions<C>,
        index: usize,
        taken: Option<Timer>,
        changed: bool,
    ) -> bool
        requires { taken ≡ timer_taken (choice_in self.now.schedule) }
        ensures { result ≡ unwrap_or (option_map (begins_anew (running_on changed self.now.schedule)) (slice_get actions.now index)) false }
    {
        match actions.get(index) {
            Some(Action::Update(timer, _)) => !self.runs_on(*timer, taken, changed),
            _ => false,
        }
    }

    /// Says whether a timer still runs when settings come to be done, where this timer's time-out is taken up.
    fn runs_on(&self, timer: Timer, taken: Option<Timer>, changed: bool) -> bool
        requires { taken ≡ timer_taken (choice_in self.now.schedule) }
        ensures { result ≡ is_some (running_of timer (running_on changed self.now.schedule)) }
    {
        !is_cancelled(timer, changed) && !is_taken(timer, taken) && self.timeouts.runs(timer)
    }

    /// The timer whose time-out a turn takes up, if it takes one up.
    fn taken_up(&self) -> Option<Timer>
        ensures { result ≡ timer_taken (choice_in self.now.schedule) }
    {
        if let Some((timer, _)) = self.next_zero() {
            return Some(timer);
        }
        match self.pending.peek() {
            None => None,
            Some(Queued::Event(_)) => None,
            Some(Queued::Expiry(timer, _)) => Some(*timer),
        }
    }

    /// The running time-outs in the order in which they were set: timer, number of the event, when it is due.
    ///
    /// Where memory is wanted and there is none, nothing is listed. Manual: `timeout_action()`.
    pub fn timers(&self) -> Result<PlainList<(Timer, u64, Due)>, AllocError>
        ensures { IfOk result (λ timers. timers ≡ shown_timers self.now.schedule) }
    {
        self.timeouts.list()
    }

    /// The moment, in milliseconds, at which the next time-out expires that has not expired yet. One that is
    /// due at once waits for no moment.
    ///
    /// Ours: docs/TRANSITIONS.md, Time-outs.
    pub fn next_due(&self) -> Option<u64>
        ensures { result ≡ next_due_among self.now.schedule.pending self.now.schedule.running }
    {
        self.timeouts.next_due()
    }
}

impl<C: Drop> Agenda<C> {
    /// What waits and the time-outs that run, as a value of its own; a copier copies the contents.
    ///
    /// Nothing changes, also where memory is wanted and there is none. Ours: docs/DECISIONS.md, Snapshots.
    pub fn copy<K: CopyContent<C>>(
        &mut self,
        alloc: Global,
        copier: &K,
    ) -> Result<Schedule<C>, AllocError>
        ensures copy { IfOk result (λ copy. copy ≡ self.old.schedule) }
        ensures unchanged { self.new ≡ self.old }
    {
        let running = self.timeouts.copy(copier)?;
        let (pending, postponed) = self.pending.copy(&self.timeouts, alloc, copier)?;
        let next_number = self.next_number();
        Ok(Schedule {
            pending,
            postponed,
            running,
            next_number,
        })
    }

    /// Puts a posted event behind all that waits, and answers its number.
    ///
    /// Where memory is wanted and there is none, nothing changes and the content comes back.
    /// Manual: `event_type()`, `cast/2`.
    pub fn push(&mut self, kind: Kind, content: C) -> Result<u64, AllocFailed<C>>
        requires { self.old.schedule.next_number < 2 ^ 63 }
        ensures number { IfOk result (λ number. number ≡ self.old.schedule.next_number) }
        ensures pushed { OnOk result (self.new.schedule ≡ record self.old.schedule {
          pending = self.old.schedule.pending ++ Posted (record { number = self.old.schedule.next_number; kind = kind; content = content }) ∷ [];
          next_number = self.old.schedule.next_number + 1;
        }) }

        ensures unchanged { OnErr result (self.new ≡ self.old) }
        ensures value_returned { IfErr result (λ failed. failed.value ≡ content) }
    {
        let pushed = self.pending.push(kind, content);
        self.pending.in_order();
        pushed
    }

    /// Reserves memory, so that `count` events can come in later and want none.
    ///
    /// Where memory is wanted and there is none, nothing changes. Ours: docs/DECISIONS.md, Choices in the code.
    pub fn stage(&mut self, count: usize) -> Result<(), AllocError>
        ensures staged { OnOk result (self.new ≡ record self.old { staged = max self.old.staged count }) }

        ensures unchanged { OnErr result (self.new ≡ self.old) }
    {
        self.pending.stage(count)
    }

    /// Reserves memory, so that `count` timers can be set later and want none.
    ///
    /// Where memory is wanted and there is none, nothing changes. Ours: docs/DECISIONS.md, Choices in the code.
    pub fn reserve(&mut self, count: usize) -> Result<(), AllocError>
        ensures reserved { OnOk result (self.new ≡ record self.old { reserved = max self.old.reserved count }) }

        ensures unchanged { OnErr result (self.new ≡ self.old) }
    {
        self.timeouts.reserve(count)
    }

    /// Reserves memory for what a transition may need: so many inserted events and the event of a time-out
    /// that is taken up, and so many timers.
    ///
    /// Where memory is wanted and there is none, nothing that waits or runs changes. Ours:
    /// docs/DECISIONS.md, Choices in the code.
    pub fn reserve_for(&mut self, inserts: usize, timers: usize) -> Result<(), AllocError>
        requires { inserts ≤ 2 ^ 63 }
        ensures staged { OnOk result (inserts + 1 ≤ self.new.staged) }
        ensures reserved { OnOk result (timers ≤ self.new.reserved) }
        ensures unchanged { self.new.schedule ≡ self.old.schedule }
    {
        self.stage(inserts + 1)?;
        self.reserve(timers)
    }

    /// Each time-out that is due by a moment, in milliseconds, expires: its expiry goes behind all that
    /// waits. It answers how many. It looks at these and at no more than one other: a step is a look.
    ///
    /// Memory is wanted only where one expires. Where there is none, nothing changes. Ours:
    /// docs/TRANSITIONS.md, Time-outs.
    pub fn expire<L: Ledger>(&mut self, now: u64, steps: &mut Steps<L>) -> Result<usize, AllocError>
        ensures count { IfOk result (λ count. count ≡ length (expiring_by now self.old.schedule.pending self.old.schedule.running)) }
        ensures expired { OnOk result (self.new.schedule ≡ with_all_expired (expiring_by now self.old.schedule.pending self.old.schedule.running) self.old.schedule) }
        ensures looks { steps.new ≤ steps.old + length (expiring_by now self.old.schedule.pending self.old.schedule.running) + 1 }

        ensures enough { length (expiring_by now self.old.schedule.pending self.old.schedule.running) ≡ 0 → IsOk result }
        ensures unchanged { OnErr result (self.new ≡ self.old) }
    {
        let count = self.timeouts.count_due(now, steps);
        if count > 0 {
            self.stage(count)?;
        }
        for _place in 0..count {
            self.expire_next();
        }
        Ok(count)
    }

    /// What a transition does with what waits and what runs before others come in and timers are set, where the next
    /// event has this number: it is received, and the event time-out cancelled; it is postponed or finished; at a state
    /// change none is postponed any more, and the state time-out is cancelled. It takes no memory.
    ///
    /// Manual: `transition_option()`, the steps of a state transition.
    pub fn settle(&mut self, number: u64, postpone: bool, changed: bool)
        requires number_is { option_map (λ event. event.number) (next_in self.old.schedule) ≡ Some number }
        requires staged { 0 < self.old.staged }
        ensures schedule { self.new.schedule ≡ received_and_retried_in self.old.schedule number postpone changed }
        ensures next_number { self.new.schedule.next_number ≡ self.old.schedule.next_number }
        ensures staged { self.old.staged ≤ self.new.staged + 1 }
        ensures reserved { self.new.reserved ≡ self.old.reserved }
    {
        self.receive();
        self.cancel(Timer::Event);
        self.dispose(number, postpone);
        self.retry(changed);
    }

    /// The next time-out expires, which is due by now.
    fn expire_next(&mut self)
        requires due { (now : ℕ) × (0 < length (expiring_by now self.old.schedule.pending self.old.schedule.running)) }
        requires reserved { 0 < self.old.staged }
        ensures schedule { (now : ℕ) → 0 < length (expiring_by now self.old.schedule.pending self.old.schedule.running)
            → self.new.schedule ≡ with_first_expiry (expiring_by now self.old.schedule.pending self.old.schedule.running) self.old.schedule }
        ensures rest { (now : ℕ) → 0 < length (expiring_by now self.old.schedule.pending self.old.schedule.running)
            → expiring_by now self.new.schedule.pending self.new.schedule.running ≡ all_but_first (expiring_by now self.old.schedule.pending self.old.schedule.running) }
        ensures staged { self.new.staged + 1 ≡ self.old.staged }
    {
        let Some((timer, number)) = self.timeouts.take_due() else {
            unreachable!()
        };
        self.pending.push_expiry(timer, number);
        self.pending.in_order();
        prove!(self.expiries < self.pending.len());
        self.expiries += 1;
    }

    /// What a turn takes up is received, in its place.
    fn receive(&mut self)
        requires { 0 < self.old.staged }
        ensures schedule { self.new.schedule ≡ received_in self.old.schedule }
        ensures first { option_map (λ event. event.number) (first_received self.new.schedule.postponed self.new.schedule.pending) ≡ option_map (λ event. event.number) (next_in self.old.schedule) }
        ensures staged { self.old.staged ≤ self.new.staged + 1 }
        ensures reserved { self.new.reserved ≡ self.old.reserved }
    {
        if self.pending.was_received() {
            return;
        }
        if let Some((timer, number)) = self.timeouts.first_zero() {
            let Some(content) = self.timeouts.take(timer, number) else {
                unreachable!()
            };
            self.pending.put_in(timeout_event(timer, number, content));
            self.pending.in_order();
            return;
        }
        match self.pending.peek() {
            None => {}
            Some(Queued::Event(event)) => {
                let number = event.number;
                self.pending.receive(number);
                self.pending.in_order();
            }
            Some(Queued::Expiry(timer, number)) => {
                let (timer, number) = (*timer, *number);
                let Some(content) = self.timeouts.take(timer, number) else {
                    unreachable!()
                };
                self.pending.finish(number);
                self.pending.in_order();
                self.expiries -= 1;
                self.pending.put_in(timeout_event(timer, number, content));
                self.pending.in_order();
            }
        }
    }

    /// The time-out of a timer is cancelled.
    fn cancel(&mut self, timer: Timer)
        ensures { self.new ≡ record self.old { schedule = cancelled_in self.old.schedule timer } }
    {
        let _content = self.timeouts.cancel(timer);
        self.expiries = pass_dead(&mut self.pending, &self.timeouts, self.expiries);
    }

    /// The event of a number, which was received and comes next, is postponed and keeps its place, or it
    /// is finished and leaves.
    fn dispose(&mut self, number: u64, postpone: bool)
        requires { option_map (λ event. event.number) (first_received self.old.schedule.postponed self.old.schedule.pending) ≡ Some number }
        ensures { self.new ≡ record self.old { schedule = disposed_in self.old.schedule number postpone } }
    {
        if postpone {
            self.pending.postpone(number);
        } else {
            self.pending.finish(number);
        }
        self.pending.in_order();
        self.expiries = pass_dead(&mut self.pending, &self.timeouts, self.expiries);
    }

    /// At a state change no event is postponed any more, and the state time-out is cancelled.
    fn retry(&mut self, changed: bool)
        ensures { self.new ≡ record self.old { schedule = retried_in self.old.schedule changed } }
    {
        if changed {
            self.forget_postponed();
            self.cancel(Timer::State);
        }
    }

    /// No event is postponed any more.
    fn forget_postponed(&mut self)
        ensures { self.new ≡ record self.old { schedule = record self.old.schedule { postponed = [] } } }
    {
        self.pending.retry();
        self.pending.in_order();
    }

    /// Takes the events to be inserted, of which there are so many, out of a list of actions, and puts them in before the
    /// first one that is not postponed, in order, with the next numbers. They are received. It takes no memory.
    ///
    /// Manual: `action()`, the bullet on `next_event`.
    pub fn insert(&mut self, count: usize, actions: &mut Actions<C>)
        requires count { count ≡ length (inserts_of actions.old) }
        requires reserved { count ≤ self.old.staged }
        requires numbers { self.old.schedule.next_number + count ≤ 2 ^ 63 }
        ensures inserted { self.new ≡ record self.old {
          schedule = inserted_in self.old.schedule (inserts_of actions.old);
          staged = self.old.staged - count;
        } }
        ensures same_settings { all_settings_of actions.new ≡ all_settings_of actions.old }
        ensures same_sends { sends_of actions.new ≡ sends_of actions.old }
    {
        if count > 0 {
            self.insert_all(count, actions);
        }
    }

    /// The same, where there may be one.
    #[inline(never)]
    fn insert_all(&mut self, count: usize, actions: &mut Actions<C>)
        requires count { count ≡ length (inserts_of actions.old) }
        requires reserved { count ≤ self.old.staged }
        requires numbers { self.old.schedule.next_number + count ≤ 2 ^ 63 }
        ensures inserted { self.new ≡ record self.old {
          schedule = inserted_in self.old.schedule (inserts_of actions.old);
          staged = self.old.staged - count;
        } }
        ensures same_settings { all_settings_of actions.new ≡ all_settings_of actions.old }
        ensures same_sends { sends_of actions.new ≡ sends_of actions.old }
    {
        self.pending.insert(count, actions);
        self.pending.in_order();
    }

    /// Takes the settings, of which there are so many and of no timer two, out of a list of actions, and does them at a
    /// moment, in milliseconds, in their order. It takes no memory.
    ///
    /// Manual: `timeout_action()`, `timeout_cancel_action()`, `timeout_update_action()`.
    pub fn set_all(&mut self, now: u64, count: usize, actions: &mut Actions<C>)
        requires count { count ≡ length (all_settings_of actions.old) }
        requires moment { now < 2 ^ 63 }
        requires once { AskedOnce (all_settings_of actions.old) }
        requires reserved { count ≤ self.old.reserved }
        requires numbers { self.old.schedule.next_number + numbers_taken self.old.schedule.running (all_settings_of actions.old) ≤ 2 ^ 63 }
        ensures set { self.new.schedule ≡ all_set_in now self.old.schedule (all_settings_of actions.old) }
        ensures same_sends { sends_of actions.new ≡ sends_of actions.old }
    {
        if count > 0 {
            self.set_each(now, actions);
        }
    }

    /// The same, where there may be one.
    #[inline(never)]
    fn set_each(&mut self, now: u64, actions: &mut Actions<C>)
        requires moment { now < 2 ^ 63 }
        requires once { AskedOnce (all_settings_of actions.old) }
        requires reserved { length (all_settings_of actions.old) ≤ self.old.reserved }
        requires numbers { self.old.schedule.next_number + numbers_taken self.old.schedule.running (all_settings_of actions.old) ≤ 2 ^ 63 }
        ensures set { self.new.schedule ≡ all_set_in now self.old.schedule (all_settings_of actions.old) }
        ensures same_sends { sends_of actions.new ≡ sends_of actions.old }
    {
        for index in 0..actions.len() {
            if let Some(setting) = take_setting(actions, index) {
                self.set(now, setting);
            }
        }
    }

    /// Does at a moment, in milliseconds, what is asked of a timer: it is set, and what ran of it is cancelled first; it
    /// is stopped; or its time-out gets another content. It takes no memory.
    ///
    /// Manual: `timeout_action()`, `timeout_cancel_action()`, `timeout_update_action()`.
    pub fn set(&mut self, now: u64, setting: Setting<C>)
        requires moment { now < 2 ^ 63 }
        requires reserved { 0 < self.old.reserved }
        requires numbers { self.old.schedule.next_number + taken_by self.old.schedule.running setting.timer setting.asked ≤ 2 ^ 63 }
        ensures schedule { self.new.schedule ≡ set_in now self.old.schedule setting }
        ensures reserved { self.old.reserved ≤ self.new.reserved + 1 }
    {
        let Setting { timer, asked } = setting;
        match asked {
            Asked::Set(Time::After(time), content) => self.begin(now, timer, time, content),
            Asked::Set(Time::Infinity, _) | Asked::Cancel => self.cancel(timer),
            Asked::Update(content) => self.update_or_begin(now, timer, content),
        }
    }

    /// The time-out of a timer gets another content; where none runs, one begins at a moment, in milliseconds, for no
    /// time.
    fn update_or_begin(&mut self, now: u64, timer: Timer, content: C)
        requires moment { now < 2 ^ 63 }
        requires reserved { 0 < self.old.reserved }
        requires numbers { self.old.schedule.next_number + taken_by self.old.schedule.running timer (Update content) ≤ 2 ^ 63 }
        ensures schedule { self.new.schedule ≡ asked_in now self.old.schedule timer (Update content) }
        ensures reserved { self.old.reserved ≤ self.new.reserved + 1 }
    {
        if self.timeouts.runs(timer) {
            self.update(timer, content);
        } else {
            self.begin(now, timer, 0, content);
        }
    }

    /// The time-out of a timer that runs gets another content.
    fn update(&mut self, timer: Timer, content: C)
        requires { is_some (running_of timer self.old.schedule.running) ≡ true }
        ensures { self.new ≡ record self.old { schedule = updated_in self.old.schedule timer content } }
    {
        let _old = self.timeouts.update(timer, content);
    }

    /// A time-out of a timer begins at a moment, in milliseconds: what ran of it runs no more.
    fn begin(&mut self, now: u64, timer: Timer, time: u32, content: C)
        requires moment { now < 2 ^ 63 }
        requires reserved { 0 < self.old.reserved }
        requires numbers { self.old.schedule.next_number < 2 ^ 63 }
        ensures schedule { self.new.schedule ≡ restarted_in now self.old.schedule timer (After time) content }
        ensures reserved { self.old.reserved ≤ self.new.reserved + 1 }
    {
        let number = self.pending.take_number();
        self.pending.in_order();
        let _old = self.timeouts.set(timer, time, content, number, now);
        // What ran may have expired: its expiry may stand in front.
        self.expiries = pass_dead(&mut self.pending, &self.timeouts, self.expiries);
    }
}

/// Says whether a transition cancels the time-out of a timer: that of the event, and, at a state change, that of the
/// state.
fn is_cancelled(timer: Timer, changed: bool) -> bool
    ensures { result ≡ is_cancelled changed timer }
{
    match timer {
        Timer::Event => true,
        Timer::State => changed,
        Timer::Named(_) => false,
    }
}

/// Says whether the time-out that is taken up is that of a timer.
fn is_taken(timer: Timer, taken: Option<Timer>) -> bool
    ensures { result ≡ is_taken taken timer }
{
    match taken {
        None => false,
        Some(taken) => timer == taken,
    }
}

/// The number of the next slot, where it is an expiry whose time-out runs no more.
fn dead_number<C>(pending: &Pending<C>, timeouts: &Timeouts<C>) -> Option<u64>
    ensures { result ≡ dead_at timeouts.now.listed (next_of pending.now.postponed pending.now.items) }
{
    match pending.peek() {
        None | Some(Queued::Event(_)) => None,
        Some(Queued::Expiry(timer, number)) => {
            if timeouts.is_live(*timer, *number) {
                None
            } else {
                Some(*number)
            }
        }
    }
}

/// Takes expiries out of the front whose time-outs run no more, and answers how many expiries stay.
/// Nothing that waits is changed by it. Where there is no expiry, it looks at nothing.
#[inline]
fn pass_dead<C: Drop>(pending: &mut Pending<C>, timeouts: &Timeouts<C>, expiries: usize) -> usize
    requires { Agrees pending.old timeouts.now.listed expiries }
    ensures agrees { Agrees pending.new timeouts.now.listed result }
    ensures alive { IsAlive timeouts.now.listed (next_of pending.new.postponed pending.new.items) }
    ensures same_items { items_in timeouts.now.listed pending.new.items ≡ items_in timeouts.now.listed pending.old.items }
    ensures rest { pending.new ≡ record pending.old { items = pending.new.items } }
{
    if expiries == 0 {
        return 0;
    }
    pass_each_dead(pending, timeouts, expiries)
}

/// The same, where there may be an expiry.
// Few machines have an expiry that waits, and the others are not to get anything ready for this.
#[inline(never)]
fn pass_each_dead<C: Drop>(
    pending: &mut Pending<C>,
    timeouts: &Timeouts<C>,
    expiries: usize,
) -> usize
    requires { Agrees pending.old timeouts.now.listed expiries }
    ensures agrees { Agrees pending.new timeouts.now.listed result }
    ensures alive { IsAlive timeouts.now.listed (next_of pending.new.postponed pending.new.items) }
    ensures same_items { items_in timeouts.now.listed pending.new.items ≡ items_in timeouts.now.listed pending.old.items }
    ensures rest { pending.new ≡ record pending.old { items = pending.new.items } }
{
    let mut left = expiries;
    while let Some(number) = dead_number(pending, timeouts) {
        pending.finish(number);
        pending.in_order();
        left -= 1;
    }
    left
}

/// The event of the time-out of a timer whose event has this number, if it runs.
fn seen_timeout<C>(timeouts: &Timeouts<C>, timer: Timer, number: u64) -> Option<(u64, Kind, &C)>
    ensures { option_map (λ seen. record { number = seen.0; kind = seen.1; content = seen.2.now }) result ≡ option_map choice.timeout_event (live timer number timeouts.now.listed) }
{
    let content = timeouts.content(timer, number)?;
    Some((number, Kind::Timeout(timer), content))
}

/// The event of a time-out.
fn timeout_event<C>(timer: Timer, number: u64, content: C) -> Event<C>
    ensures { result ≡ record { number = number; kind = Timeout timer; content = content } }
{
    Event {
        number,
        kind: Kind::Timeout(timer),
        content,
    }
}
