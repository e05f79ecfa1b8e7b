//! How the ports of a service reach those who serve.
ghost use Rattle.std.specs.Prelude.{◌≡◌, Some, IfSome};

use crate::Observer;
use crate::closing::Closing;
use crate::served_hall::ServedHall;
use st_cell::Next;
use st_events::Token;
use st_hall::{Machine, Module};
use st_pool::{Gate, Scheduler};
use st_ticker::Ticker;
use st_wake::schedule;
use std::alloc::Global;
use std::rt::Clock;
use std::sync::{Arc, RwLock, Wait};
use std::thread;
use std::time::Duration;

/// So many milliseconds after something found no memory it is tried again.
const RETRY: u64 = 5;

/// How the ports of a service reach those who serve: the workers, or the caller himself.
#[derive(Drop)]
pub(crate) struct Link<M: Module, R: Wait + Clock + Drop, O: Observer<M> + Drop> {
    rt: R,
    scheduler: Scheduler,
    closing: Closing,
    served: Arc<ServedHall<M, R, O>, Global>,
    ticker: Arc<Ticker<M, R>, Global>,
    // Whether no machine may be started or served by a caller any more. Who does has it to read, to the end.
    is_closed: RwLock<bool>,
}

impl<M: Module, R: Wait + Clock + Drop, O: Observer<M> + Drop> Link<M, R, O> {
    /// Tokens go to this scheduler.
    pub(crate) fn new(
        rt: R,
        scheduler: Scheduler,
        closing: Closing,
        served: Arc<ServedHall<M, R, O>, Global>,
        ticker: Arc<Ticker<M, R>, Global>,
    ) -> Link<M, R, O> {
        Link {
            rt,
            scheduler,
            closing,
            served,
            ticker,
            is_closed: RwLock::new(false),
        }
    }

    /// What its locks are taken by.
    pub(crate) fn rt(&self) -> &R {
        &self.rt
    }

    /// Whether no machine may be started any more.
    pub(crate) fn is_closed(&self) -> &RwLock<bool> {
        &self.is_closed
    }

    /// Nothing is posted from outside any more, no machine is started or served by a caller, and whoever tries again for want of
    /// memory gives up. It waits for those who start a machine or make a turn. Who had begun to post may still do so.
    pub(crate) fn close(&self) {
        self.closing.begin();
        *self.is_closed.write(&self.rt) = true;
    }

    /// Whether the service is shutting down, or was dropped.
    pub(crate) fn is_closing(&self) -> bool {
        self.closing.has_begun()
    }

    /// Schedules a machine by its token, if it was issued one. Where there is no memory, it is tried again until the service
    /// closes: then the token is answered, for no worker serves it any more. It need not be kept, for the machine shows it.
    pub(crate) fn schedule(&self, token: Option<Token>) -> Option<Token>
        ensures returned { IfSome result (λ left. token ≡ Some left) }
    {
        for _ in self.rt.forever() {
            let left = schedule(&self.rt, &self.scheduler, token);
            if left.is_none() || self.gives_up() {
                return left;
            }
        }
        unreachable!()
    }

    /// A caller whose post was issued a token makes the machine's turn himself, so that no thread sleeps and none is woken.
    pub(crate) fn serve(&self, machine: &Machine<M>, token: Option<Token>) {
        let Some(token) = token else {
            return;
        };
        if let Some(rests) = self.turn(machine, token) {
            self.served.after(token.machine, rests);
            Gate::after(&*self.ticker, 0, token);
        }
    }

    /// Makes a turn, and schedules the machine where work or a message is left, or where the turn was refused. Answers whether
    /// the machine rests. `None`: the service is closed, and no turn was made.
    fn turn(&self, machine: &Machine<M>, token: Token) -> Option<bool> {
        let is_closed = self.is_closed.read(&self.rt);
        if *is_closed {
            return None;
        }
        let left = match machine.turn(&self.rt, token, self.ticker.now()) {
            Ok(Next::Rest) => None,
            Ok(Next::Again(token)) => Some(token),
            Err(refused) => Some(refused.value),
        };
        // Where it comes back, the service is closing: who closes it asks the machine for its token.
        let _ = self.schedule(left);
        Some(left.is_none())
    }

    /// Something found no memory: waits a little. `true`: the service is closing, so it is not to be tried again.
    pub(crate) fn gives_up(&self) -> bool {
        gives_up(&self.rt, &self.closing)
    }
}

/// Something found no memory: waits a little. `true`: the service is closing, so it is not to be tried again.
pub(crate) fn gives_up<R: Wait + Clock>(rt: &R, closing: &Closing) -> bool {
    if closing.has_begun() {
        return true;
    }
    thread::sleep(rt, Duration::from_millis(RETRY));
    false
}
