//! One worker: its own run queue and its hand.
ghost use Rattle.std.specs.Prelude.{◌≡◌, [], None};

use crate::token_queue::TokenQueue;
use st_events::Token;
use std::alloc::Global;
use std::marker::Model;

/// A worker: its own run queue, and the token in its hand, if there is one.
#[derive(Drop)]
pub(crate) struct Worker {
    pub(crate) queue: TokenQueue,
    pub(crate) hand: Option<Token>,
}

impl Model for Worker {
    ghost use Rattle.st_pool_core.specs.Queues.{WorkerState};

    ghost Value = { WorkerState };

    ghost view = { λ worker. record { queue = worker.queue; hand = worker.hand } };
}

impl Worker {
    /// A worker with no token.
    pub(crate) fn new(alloc: Global) -> Worker
        ensures { result ≡ record { queue = []; hand = None } }
    {
        Worker {
            queue: TokenQueue::new(alloc),
            hand: None,
        }
    }
}
