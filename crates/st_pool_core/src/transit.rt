//! The messages in transit: what each worker carries.
ghost use Rattle.std.specs.Prelude.{◌≡◌, ◌<◌, ◌≤◌, None, length, replicate, option_copied, IfOk, IfNone, OnSome};
ghost use Rattle.st_pool_core.specs.Transit.{message_in, is_carrying, with_message};

use st_events::Message;
use std::alloc::{AllocError, Global};
use std::marker::Model;

/// The workers' second hands, each for a message that was taken out and is not delivered yet. Contracts see what is in
/// them, one place a worker.
#[derive(Drop)]
pub(crate) struct Transit<C> {
    hands: Vec<Option<Message<C>>>,
}

impl<C> Model for Transit<C> {
    ghost use Rattle.std.specs.Prelude.{Option, List};
    ghost use Rattle.st_events.specs.declared.message.Message.{Message};

    ghost Value = { List (Option (Message C)) };

    ghost view = { λ transit. transit.hands.items };
}

impl<C: Drop> Transit<C> {
    /// Empty second hands for so many workers.
    pub(crate) fn new(alloc: Global, count: usize) -> Result<Transit<C>, AllocError>
        ensures { IfOk result (λ transit. transit ≡ replicate count None) }
    {
        let mut hands = Vec::with_capacity(alloc, count)?;
        for _number in 0..count {
            hands.push_reserved(None);
        }
        Ok(Transit { hands })
    }

    /// The message that a worker carries; `None` where the worker is not there or carries none.
    pub(crate) fn message(&self, worker: usize) -> Option<&Message<C>>
        ensures { option_copied result ≡ message_in self.now worker }
    {
        if worker == 0 {
            return None;
        }
        match self.hands.get(worker - 1) {
            Some(hand) => hand.as_ref(),
            None => None,
        }
    }

    /// Says whether a worker carries a message.
    pub(crate) fn is_carrying(&self, worker: usize) -> bool
        ensures { result ≡ is_carrying self.now worker }
    {
        self.message(worker).is_some()
    }

    /// Takes the message out that a worker carries; where it carries none, it answers `None`.
    pub(crate) fn take(&mut self, worker: usize) -> Option<Message<C>>
        ensures message { result ≡ message_in self.old worker }
        ensures left { OnSome result (self.new ≡ with_message self.old worker None) }

        ensures unchanged { IfNone result (self.new ≡ self.old) }
    {
        if !self.is_carrying(worker) {
            return None;
        }
        let hand = &mut self.hands[worker - 1];
        hand.take()
    }

    /// What a worker carries from then on; the worker is there.
    pub(crate) fn set(&mut self, worker: usize, message: Option<Message<C>>)
        requires from_one { 0 < worker }
        requires there { worker ≤ length self.old }
        ensures { self.new ≡ with_message self.old worker message }
    {
        let hand = &mut self.hands[worker - 1];
        *hand = message;
    }
}
