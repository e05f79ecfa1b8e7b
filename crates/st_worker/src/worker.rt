//! A worker, which takes tokens and serves them.
ghost use Rattle.std.specs.Prelude.{◌≡◌, ◌+◌, ◌<◌, ◌≤◌, ◌++◌, if◌then◌else◌, ℕ, length, map, Some, None, is_some, option_to_list, IfSome, IfNone, vec_len, vec_capacity, true, false};
ghost use Rattle.st_runq.specs.Ends.{put_of, robbed_of, stolen_of};
ghost use Rattle.st_worker.specs.Round.{taken_lists, TakesOne, HasSameQueues, Holds, Serves, FindsNone, HoldsWhatCarries, GivesWoken, PutsBack, StaysSame, carried_by, served_at};

use crate::found::{Found, Source};
use crate::served::Served;
use crate::{Gate, Hand, Machines, serve_one};
use st_events::{Message, Token};
use st_runq::{Lane, Seats, Shared, Thief};
use std::sync::Wait;

/// Of so many tokens that a worker takes, it looks for one on the shared run queue first.
const SHARED_FIRST: u8 = 61;

/// A worker: its number, what it has of the run queues, the token that it has, and what it carries.
///
/// Ours: docs/DECISIONS.md, Workers.
#[derive(Drop)]
pub struct Worker<C> {
    /// Its number, from 0 on.
    pub number: usize,
    /// Its own end of its own run queue.
    pub lane: Lane,
    /// A thief of each other worker's run queue: first of those after its own number, and then from 0 on.
    pub thieves: Vec<Thief>,
    /// A taker of the shared run queue.
    pub shared: Shared,
    /// The token that it has, and serves before it takes another.
    pub hand: Option<Token>,
    /// What it carries beside that token.
    pub transit: Hand<C>,
    until_shared: u8,
}

impl<C> Worker<C> {
    ghost use Rattle.st_runq.specs.declared.seats.Seats.{Seats};

    /// A worker of this number without a token, which carries nothing.
    ///
    /// Ours: docs/DECISIONS.md, Workers.
    pub fn new(number: usize, seats: Seats) -> Worker<C>
        ensures number { result.number ≡ number }
        ensures queues { record { lane = result.lane; thieves = result.thieves; shared = result.shared } ≡ seats }
        ensures hand { result.hand ≡ None }
        ensures transit { result.transit ≡ record { message = None; woken = None } }
    {
        let Seats {
            lane,
            thieves,
            shared,
        } = seats;
        Worker {
            number,
            lane,
            thieves,
            shared,
            hand: None,
            transit: Hand::new(),
            until_shared: SHARED_FIRST - 1,
        }
    }

    /// Takes a token, where it has none, and serves nothing. `false`: there was none.
    ///
    /// It asks its own run queue, then the shared one, then the others' in the order of its thieves. Each 61st time it
    /// asks the shared one first, so that tokens which always come back do not keep it from the others. It may wait for
    /// one that is in the midst of a step on the shared run queue.
    ///
    /// Ours: docs/DECISIONS.md, Workers.
    pub fn acquire<R: Wait>(&mut self, rt: &R) -> bool
        ensures same { HasSameQueues self.old self.new × (put_of self.new.lane ≡ put_of self.old.lane) }
        ensures found { result ≡ true → Holds self.old self.new }

        ensures none { result ≡ false → FindsNone self.old self.new }
    {
        self.pick_up(rt).is_some()
    }

    /// Takes a token as `acquire` does, and answers where it is from. `None`: there was none.
    ///
    /// Ours: docs/DECISIONS.md, Workers.
    pub fn pick_up<R: Wait>(&mut self, rt: &R) -> Option<Source>
        ensures same { HasSameQueues self.old self.new × (put_of self.new.lane ≡ put_of self.old.lane) }
        ensures found { IfSome result (λ _. Holds self.old self.new) }

        ensures none { IfNone result (FindsNone self.old self.new) }
    {
        if self.hand.is_some() {
            return Some(Source::Hand);
        }
        match self.find(rt) {
            Some(found) => {
                self.hand = Some(found.token);
                Some(found.source)
            }
            None => None,
        }
    }

    /// Serves the token that it has, or else one that it takes as `acquire` does. `false`: there was none. The caller sees to
    /// it that no woken token is in the worker's hand.
    ///
    /// A token that is to be served again goes on its own run queue. It stays with the worker, which serves it next, where
    /// the queue refuses it for want of memory, and as long as the turn left a message or a woken token in the hand: from
    /// the queue another worker might take it. A woken token is the caller's to put on the worker's own queue.
    ///
    /// Ours: docs/DECISIONS.md, Workers.
    pub fn round<R: Wait, M: Machines<Content = C>, G: Gate>(
        &mut self,
        rt: &R,
        machines: &M,
        gate: &G,
    ) -> bool
        requires woken { self.old.transit.woken ≡ None }
        ensures same { HasSameQueues self.old self.new }
        ensures served { result ≡ true → Serves (served_at G.moment M.served) self.old self.new }
        ensures carrying { result ≡ true → HoldsWhatCarries self.new }

        ensures none { result ≡ false → FindsNone self.old self.new }
    {
        self.serve_next(rt, machines, gate).is_some()
    }

    /// Serves a token as `round` does, and answers where it is then. `None`: there was none.
    ///
    /// Ours: docs/DECISIONS.md, Workers.
    pub fn serve_next<R: Wait, M: Machines<Content = C>, G: Gate>(
        &mut self,
        rt: &R,
        machines: &M,
        gate: &G,
    ) -> Option<Served>
        requires woken { self.old.transit.woken ≡ None }
        ensures same { HasSameQueues self.old self.new }
        ensures served { IfSome result (λ _. Serves (served_at G.moment M.served) self.old self.new) }
        ensures carrying { IfSome result (λ _. HoldsWhatCarries self.new) }

        ensures none { IfNone result (FindsNone self.old self.new) }
    {
        let token = match self.hand {
            Some(token) => token,
            None => match self.find(rt) {
                Some(found) => found.token,
                None => return None,
            },
        };
        gate.before(self.number, token);
        let answer = serve_one(machines, token, gate.now(), &mut self.transit);
        gate.after(self.number, token);
        self.hand = answer;
        if answer.is_none() {
            return Some(Served::Rested);
        }
        if self.transit.woken.is_none() && self.put_back() {
            return Some(Served::Requeued);
        }
        Some(Served::Held)
    }

    /// Puts the token that it has on its own run queue, unless it carries a message. `false`: the token is where it was,
    /// since a message is carried or there was no memory; or there was none.
    ///
    /// Ours: docs/DECISIONS.md, Workers.
    pub fn put_back(&mut self) -> bool
        ensures put { result ≡ true → PutsBack self.old self.new }

        ensures refused { result ≡ false → StaysSame self.old self.new }
    {
        let Some(token) = self.hand else {
            return false;
        };
        if self.transit.message.is_some() || self.lane.put_local(token).is_err() {
            return false;
        }
        self.hand = None;
        true
    }

    /// Puts the token that a delivery woke on its own run queue. `false`: that refused it, for want of memory, and the
    /// token is where it was; or there was none.
    ///
    /// Ours: docs/DECISIONS.md, Workers.
    pub fn give_woken(&mut self) -> bool
        ensures put { result ≡ true → GivesWoken self.old self.new }

        ensures refused { result ≡ false → StaysSame self.old self.new }
    {
        let Some(token) = self.transit.woken else {
            return false;
        };
        if self.lane.put_local(token).is_err() {
            return false;
        }
        self.transit.woken = None;
        true
    }

    /// Hands over what it carries: a woken token, and a message with the token that it has. Answers how many tokens these
    /// are. The caller sees to it that each list has room for one more.
    ///
    /// Ours: docs/DECISIONS.md, Workers.
    pub fn hand_over(
        &mut self,
        left: &mut Vec<Token>,
        carried: &mut Vec<(Token, Message<C>)>,
    ) -> u32
        requires carrying { HoldsWhatCarries self.old }
        requires room_left { vec_len left.old < vec_capacity left.old }
        requires room_carried { vec_len carried.old < vec_capacity carried.old }
        ensures left { left.new.items ≡ left.old.items ++ option_to_list self.old.transit.woken }
        ensures carried { carried.new.items ≡ carried.old.items ++ carried_by self.old.hand self.old.transit.message }
        ensures tokens { length left.new.items + length carried.new.items ≡ length left.old.items + length carried.old.items + result }
        ensures rest { self.new ≡ record self.old { hand = if is_some self.old.transit.message then None else self.old.hand; transit = record { message = None; woken = None } } }
        ensures capacity { (vec_capacity left.new ≡ vec_capacity left.old) × (vec_capacity carried.new ≡ vec_capacity carried.old) }
        ensures at_most { (vec_len left.new ≤ vec_len left.old + 1) × (vec_len carried.new ≤ vec_len carried.old + 1) }
    {
        let mut tokens = 0u32;
        if let Some(token) = self.transit.woken.take() {
            left.push_reserved(token);
            tokens += 1;
        }
        let Some(message) = self.transit.message.take() else {
            return tokens;
        };
        let Some(token) = self.hand.take() else {
            unreachable!()
        };
        carried.push_reserved((token, message));
        tokens + 1
    }

    /// A token of some run queue.
    fn find<R: Wait>(&mut self, rt: &R) -> Option<Found>
        ensures same { HasSameQueues self.old self.new × (self.new.hand ≡ self.old.hand) × (self.new.transit ≡ self.old.transit) × (put_of self.new.lane ≡ put_of self.old.lane) }
        ensures some { IfSome result (λ found. TakesOne (taken_lists self.old) found.token (taken_lists self.new)) }

        ensures none { IfNone result (taken_lists self.new ≡ taken_lists self.old) }
    {
        if let Some(token) = self.find_shared_first(rt) {
            return Some(Found {
                token,
                source: Source::Shared,
            });
        }
        if let Some(token) = self.lane.take_local() {
            return Some(Found {
                token,
                source: Source::Own,
            });
        }
        if let Some(token) = self.shared.take_shared(rt) {
            return Some(Found {
                token,
                source: Source::Shared,
            });
        }
        steal_first(&mut self.thieves)
    }

    /// A token of the shared run queue, where it is the time to ask that one first.
    fn find_shared_first<R: Wait>(&mut self, rt: &R) -> Option<Token>
        ensures same { HasSameQueues self.old self.new × (self.new.hand ≡ self.old.hand) × (self.new.transit ≡ self.old.transit) × (put_of self.new.lane ≡ put_of self.old.lane) }
        ensures some { IfSome result (λ token. TakesOne (taken_lists self.old) token (taken_lists self.new)) }

        ensures none { IfNone result (taken_lists self.new ≡ taken_lists self.old) }
    {
        if self.until_shared > 0 {
            self.until_shared -= 1;
            return None;
        }
        self.until_shared = SHARED_FIRST - 1;
        self.shared.take_shared(rt)
    }
}

/// A token of another's run queue.
fn steal_first(thieves: &mut Vec<Thief>) -> Option<Found>
    ensures same { map robbed_of thieves.new.items ≡ map robbed_of thieves.old.items }
    ensures some { IfSome result (λ found. TakesOne (map stolen_of thieves.old.items) found.token (map stolen_of thieves.new.items)) }

    ensures none { IfNone result (map stolen_of thieves.new.items ≡ map stolen_of thieves.old.items) }
{
    for place in 0..thieves.len() {
        if let Some(token) = thieves[place].steal() {
            return Some(Found {
                token,
                source: Source::Other(place),
            });
        }
    }
    None
}
