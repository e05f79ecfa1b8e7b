//! What is left to be done while a service is shut down.
ghost use Rattle.std.specs.Prelude.{◌≡◌, ◌+◌, ◌≤◌, length, None, OnOk};
ghost use Rattle.std.specs.VecDeque.{deque_capacity};
ghost use Rattle.std.specs.Prelude.{vec_len, vec_capacity};

use crate::ShutDown;
use st_events::Token;
use st_hall::{Hand, Refusal, Undelivered};
use st_pool::Message;
use st_ticker::TickedPoolEnd;
use std::alloc::{AllocError, Global};
use std::collections::VecDeque;

/// What is left to be done while a service is shut down, and what was found so far: so that it can go on after a want of
/// memory.
#[derive(Drop)]
pub(crate) struct Shutting<C> {
    // Whether the threads have ended, and what they left was taken over.
    is_ended: bool,
    // The messages on their way, each with the token of its sender.
    carried: Vec<(Token, Message<C>)>,
    // The tokens of machines that have work, to be served in turn.
    tokens: VecDeque<Token>,
    // How many turns were made here.
    pub(crate) made: u64,
    pub(crate) found: ShutDown<C>,
}

impl<C: Drop> Shutting<C> {
    /// Nothing is to be done. It takes no memory.
    pub(crate) fn new(alloc: Global) -> Shutting<C> {
        let undelivered = Undelivered {
            stopped: 0,
            exhausted: 0,
            missing: 0,
        };
        Shutting {
            is_ended: false,
            carried: Vec::new(alloc),
            tokens: VecDeque::new(alloc),
            made: 0,
            found: ShutDown::new(alloc, undelivered),
        }
    }

    /// What the threads carried is to be delivered: once, for a pool that was closed has nothing left. The tokens that they had
    /// are not kept: their machines show them.
    pub(crate) fn take_over(&mut self, end: TickedPoolEnd<C>) {
        if self.is_ended {
            return;
        }
        self.is_ended = true;
        self.found.turns = end.pool.turns;
        self.found.ticks = end.ticks;
        self.carried = end.pool.carried;
    }

    /// Makes room for what serving one token may leave.
    pub(crate) fn reserve(&mut self) -> Result<(), AllocError>
        ensures carried { OnOk result (vec_len self.new.carried + 1 ≤ vec_capacity self.new.carried) }
        ensures tokens { OnOk result (length self.new.tokens.items + 2 ≤ deque_capacity self.new.tokens) }
    {
        self.carried.reserve(1)?;
        self.tokens.reserve(2)
    }

    /// The next token that is to be served, and the message that its worker carried, if it did.
    pub(crate) fn next(&mut self) -> (Option<Token>, Hand<C>)
        requires carried { vec_len self.old.carried + 1 ≤ vec_capacity self.old.carried }
        requires tokens { length self.old.tokens.items + 2 ≤ deque_capacity self.old.tokens }
        ensures carried { vec_len self.new.carried + 1 ≤ vec_capacity self.new.carried }
        ensures tokens { length self.new.tokens.items + 2 ≤ deque_capacity self.new.tokens }
        ensures woken { result.1.woken ≡ None }
    {
        let mut hand = Hand::new();
        if let Some((token, message)) = self.carried.pop() {
            hand.message = Some(message);
            return (Some(token), hand);
        }
        (self.tokens.pop_front(), hand)
    }

    /// What serving a token left is to be served in its turn: its own machine, where it is to be served again, and the one that
    /// a delivery woke.
    pub(crate) fn put_back(&mut self, token: Option<Token>, hand: Hand<C>)
        requires carried { vec_len self.old.carried + 1 ≤ vec_capacity self.old.carried }
        requires tokens { length self.old.tokens.items + 2 ≤ deque_capacity self.old.tokens }
    {
        let Hand { message, woken } = hand;
        if let Some(woken) = woken {
            self.tokens.push_back_reserved(woken);
        }
        match (token, message) {
            (Some(token), Some(message)) => self.carried.push_reserved((token, message)),
            (Some(token), None) => self.tokens.push_back_reserved(token),
            (None, _) => {}
        }
    }

    /// A machine has work, and is to be served in its turn by its token. Where there is no memory, nothing changes.
    pub(crate) fn add(&mut self, token: Token) -> Result<(), AllocError> {
        self.tokens.push_back(token)?;
        Ok(())
    }

    /// The messages that were carried are handed out.
    pub(crate) fn hand_out_carried(&mut self) -> Result<(), AllocError> {
        for _ in 0..self.carried.len() {
            self.reserve_message()?;
            if let Some((_token, message)) = self.carried.pop() {
                self.found.messages.push_reserved(message);
            }
        }
        Ok(())
    }

    /// Makes room for a message that is handed out.
    pub(crate) fn reserve_message(&mut self) -> Result<(), AllocError>
        ensures { OnOk result (vec_len self.new.found.messages + 1 ≤ vec_capacity self.new.found.messages) }
    {
        self.found.messages.reserve(1)
    }

    /// A message is handed out.
    pub(crate) fn hand_out(&mut self, message: Message<C>)
        requires { vec_len self.old.found.messages + 1 ≤ vec_capacity self.old.found.messages }
    {
        self.found.messages.push_reserved(message);
    }

    /// A machine at which so many events waited was stopped, or not.
    pub(crate) fn count(&mut self, stopped: Result<usize, Refusal>) {
        match stopped {
            Ok(waited) => {
                self.found.stopped = self.found.stopped.saturating_add(1);
                self.found.events = self.found.events.saturating_add(waited as u64);
            }
            Err(Refusal::Exhausted) => {
                self.found.unstopped = self.found.unstopped.saturating_add(1);
            }
            Err(_) => {}
        }
    }
}
