//! The run queues and the workers' hands.
ghost use Rattle.std.specs.Prelude.{◌≡◌, ◌<◌, true, [], IfOk, OnOk, OnErr, IfNone, OnSome};
ghost use Rattle.st_pool_core.specs.Opening.{idle_workers};
ghost use Rattle.st_pool_core.specs.Queues.{has_lane, first_in, queue_in, hand_in, is_free, pushed, popped, handed, take_of};

use crate::token_queue::TokenQueue;
use crate::worker::Worker;
use st_events::{PlainList, Token};
use std::alloc::{AllocError, Global};
use std::marker::Model;

/// The shared run queue, and the workers with theirs.
#[derive(Drop)]
pub(crate) struct RunQueues {
    shared: TokenQueue,
    workers: Vec<Worker>,
}

impl Model for RunQueues {
    ghost use Rattle.st_pool_core.specs.Opening.{idle_workers};
    ghost use Rattle.st_pool_core.specs.Queues.{Queues};

    ghost Value = { Queues };

    ghost view = { λ queues. record { shared = queues.shared; workers = queues.workers.items } };
}

impl RunQueues {
    /// Empty run queues and hands for so many workers.
    pub(crate) fn new(alloc: Global, count: usize) -> Result<RunQueues, AllocError>
        ensures { IfOk result (λ queues. queues ≡ record { shared = []; workers = idle_workers count }) }
    {
        let mut workers = Vec::with_capacity(alloc, count)?;
        for _number in 0..count {
            workers.push_reserved(Worker::new(alloc));
        }
        Ok(RunQueues {
            shared: TokenQueue::new(alloc),
            workers,
        })
    }

    /// Says whether there is a lane of this number.
    pub(crate) fn has_lane(&self, lane: usize) -> bool
        ensures { result ≡ has_lane self.now lane }
    {
        lane <= self.workers.len()
    }

    /// The token in a worker's hand; `None` where the worker is not there or its hand is empty.
    pub(crate) fn hand(&self, worker: usize) -> Option<Token>
        ensures { result ≡ hand_in self.now worker }
    {
        if worker == 0 {
            return None;
        }
        match self.workers.get(worker - 1) {
            Some(worker) => worker.hand,
            None => None,
        }
    }

    /// Says whether a worker is there and its hand is empty.
    pub(crate) fn is_free(&self, worker: usize) -> bool
        ensures { result ≡ is_free self.now worker }
    {
        if worker == 0 {
            return false;
        }
        match self.workers.get(worker - 1) {
            Some(worker) => worker.hand.is_none(),
            None => false,
        }
    }

    /// Puts a token at the end of a lane, which is there. Where there is no memory, all stays as it was.
    pub(crate) fn push(&mut self, lane: usize, token: Token) -> Result<(), AllocError>
        requires { has_lane self.old lane ≡ true }
        ensures pushed { OnOk result (self.new ≡ pushed self.old lane token) }

        ensures unchanged { OnErr result (self.new ≡ self.old) }
    {
        if lane == 0 {
            self.shared.push(token)
        } else {
            let worker = &mut self.workers[lane - 1];
            worker.queue.push(token)
        }
    }

    /// Takes the first token of a lane; where the lane is not there or is empty, it answers `None`.
    pub(crate) fn pop(&mut self, lane: usize) -> Option<Token>
        ensures first { result ≡ first_in self.old lane }
        ensures popped { OnSome result (self.new ≡ popped self.old lane) }

        ensures unchanged { IfNone result (self.new ≡ self.old) }
    {
        if lane == 0 {
            return self.shared.pop();
        }
        if lane > self.workers.len() {
            return None;
        }
        let worker = &mut self.workers[lane - 1];
        worker.queue.pop()
    }

    /// Puts a token into a worker's hand, or takes out what is in it; the worker is there.
    pub(crate) fn set_hand(&mut self, worker: usize, hand: Option<Token>)
        requires from_one { 0 < worker }
        requires there { has_lane self.old worker ≡ true }
        ensures { self.new ≡ handed self.old worker hand }
    {
        let worker = &mut self.workers[worker - 1];
        worker.hand = hand;
    }

    /// A worker whose hand is empty takes the first token of a lane. It says whether it did.
    pub(crate) fn take(&mut self, worker: usize, lane: usize) -> bool
        ensures took { result ≡ (take_of self.old worker lane).0 }
        ensures left { self.new ≡ (take_of self.old worker lane).1 }
    {
        if !self.is_free(worker) {
            return false;
        }
        let Some(token) = self.pop(lane) else {
            return false;
        };
        self.set_hand(worker, Some(token));
        true
    }

    /// The tokens of a lane, if it is there. Where there is no memory, nothing is listed.
    pub(crate) fn lane(
        &self,
        alloc: Global,
        lane: usize,
    ) -> Result<Option<PlainList<Token>>, AllocError>
        ensures { IfOk result (λ tokens. tokens ≡ queue_in self.now lane) }
    {
        if lane == 0 {
            return Ok(Some(self.shared.list(alloc)?));
        }
        match self.workers.get(lane - 1) {
            Some(worker) => Ok(Some(worker.queue.list(alloc)?)),
            None => Ok(None),
        }
    }
}
