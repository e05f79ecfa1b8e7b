//! Where events come from.
ghost use Rattle.std.specs.Prelude.{ℕ, Option, ⊤};
ghost use Rattle.actor.specs.declared.next.Next.{Next};

use crate::Events;
use crate::next::Next;
use crossbeam_channel::RecvTimeoutError;
use std::rt::Clock;
use std::sync::Wait;
use std::time::Duration;

/// Where the events of a machine come from.
pub(crate) trait Feed<C> {
    // What waiting so many milliseconds, or for good, may give. `wait` alone promises it, so whoever says that it holds of
    // something was given that.
    ghost gives: { Self → Option ℕ → Next C → Type 0 };

    /// Waits for an event, at most so many milliseconds if a number is given.
    fn wait(&self, most: Option<u64>) -> Next<C>
        ensures { gives self.now most result };
}

/// A channel, with what its waits are made by.
#[derive(Drop)]
pub(crate) struct Inbox<'a, C, R> {
    pub(crate) rt: &'a R,
    pub(crate) events: &'a Events<C>,
}

impl<'a, C: Drop, R: Wait + Clock> Feed<C> for Inbox<'a, C, R> {
    // No contract knows what threads send.
    ghost gives = { λ inbox most given. ⊤ };

    fn wait(&self, most: Option<u64>) -> Next<C> {
        let Some(most) = most else {
            return match self.events.recv(self.rt) {
                Ok(event) => Next::Event(event),
                Err(_) => Next::Left,
            };
        };
        let most = Duration::from_millis(most);
        match self.events.recv_timeout(self.rt, most) {
            Ok(event) => Next::Event(event),
            Err(RecvTimeoutError::Timeout) => Next::Due,
            Err(RecvTimeoutError::Disconnected) => Next::Left,
        }
    }
}
