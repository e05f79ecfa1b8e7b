//! How a service is shut down.
ghost use Rattle.std.specs.Prelude.{◌≡◌};
ghost use Rattle.st_ticker.specs.Ended.{HasEnded};

use crate::{Observer, Service, ShutDown};
use st_directory::MOST;
use st_hall::{Machine, Module, Reason, Refusal, Served};
use st_pool::{Message, Runtime};
use std::alloc::{AllocError, Global};
use std::mem;
use std::rt::Clock;
use std::sync::Arc;

impl<M: Module, R: Runtime + Clock, O: Observer<M> + Drop> Service<M, R, O>
where
    M::Content: Send + 'static,
{
    /// Shuts the service down. From its beginning nothing is posted from outside, and no machine is started or served by a
    /// caller. The workers and the ticker end, each after the turn that it is in. What waits is handled in the caller's thread,
    /// messages from machine to machine with it, up to the turns that the options allow. Then each machine that has not ended is
    /// stopped for a reason, and what waits there still is counted. The observer is told all of it.
    ///
    /// Where there is no memory, the threads have ended, what is left stays, and the call may be made again.
    ///
    /// Manual: `stop/3`; ours: docs/DECISIONS.md, Services.
    pub fn shut_down(&mut self, reason: Reason) -> Result<ShutDown<M::Content>, AllocError>
        ensures joined { HasEnded self.new.pool }
    {
        self.link.close();
        let Ok(end) = self.pool.close() else {
            return Err(AllocError);
        };
        self.shutting.take_over(end);
        match self.finish(reason) {
            Ok(()) => Ok(self.told()),
            Err(none) => Err(none),
        }
    }

    /// What is left is handled, stopped and handed out.
    fn finish(&mut self, reason: Reason) -> Result<(), AllocError>
        ensures same { self.new.pool ≡ self.old.pool }
    {
        self.serve_rest()?;
        self.shutting.hand_out_carried()?;
        self.stop_each(reason)
    }

    /// What waits is handled, up to so many turns. Nobody else has a token: once those that are known are served, the machines
    /// are asked for theirs, until none has one.
    fn serve_rest(&mut self) -> Result<(), AllocError>
        ensures same { self.new.pool ≡ self.old.pool }
    {
        let rt = self.rt;
        let now = self.ticker.now();
        for _ in rt.forever() {
            if self.shutting.made >= self.options.turns {
                break;
            }
            if !self.serve_next(now)? && !self.gather()? {
                break;
            }
        }
        Ok(())
    }

    /// The next token is served. `false`: there is none.
    fn serve_next(&mut self, now: u64) -> Result<bool, AllocError>
        ensures same { self.new.pool ≡ self.old.pool }
    {
        self.shutting.reserve()?;
        let (token, mut hand) = self.shutting.next();
        let Some(token) = token else {
            return Ok(false);
        };
        let Served { token, refusal } = self.served.serve(token, now, &mut hand);
        self.shutting.put_back(token, hand);
        if refusal == Some(Refusal::NoMemory) {
            return Err(AllocError);
        }
        self.shutting.made = self.shutting.made.saturating_add(1);
        Ok(true)
    }

    /// The machine at a slot, if one is there.
    fn at(&self, slot: usize) -> Result<Option<Arc<Machine<M>, Global>>, AllocError> {
        match self.hall.machine_at(slot) {
            Ok(machine) => Ok(machine),
            Err(_) => Err(AllocError),
        }
    }

    /// Each machine that has a token is to be served by it. `false`: none has one.
    fn gather(&mut self) -> Result<bool, AllocError>
        ensures same { self.new.pool ≡ self.old.pool }
    {
        let mut is_any = false;
        for slot in 0..MOST {
            let Some(machine) = self.at(slot)? else {
                continue;
            };
            if let Some(token) = machine.token(&self.rt) {
                self.shutting.add(token)?;
                is_any = true;
            }
        }
        Ok(is_any)
    }

    /// Each machine that has not ended is stopped, and its messages are handed out.
    fn stop_each(&mut self, reason: Reason) -> Result<(), AllocError>
        ensures same { self.new.pool ≡ self.old.pool }
    {
        self.shutting.found.unstopped = 0;
        for slot in 0..MOST {
            if let Some(machine) = self.at(slot)? {
                self.stop_one(&*machine, reason)?;
            }
        }
        Ok(())
    }

    /// A machine is stopped where it has not ended, its messages are handed out, and the observer is told.
    fn stop_one(&mut self, machine: &Machine<M>, reason: Reason) -> Result<(), AllocError>
        ensures same { self.new.pool ≡ self.old.pool }
    {
        let stopped = machine.stop_and_count(&self.rt, reason);
        self.shutting.count(stopped);
        self.hand_out(machine)?;
        if self.served.is_observed() && self.served.tell_all(machine).is_err() {
            return Err(AllocError);
        }
        Ok(())
    }

    /// The messages of a machine are handed out.
    fn hand_out(&mut self, machine: &Machine<M>) -> Result<(), AllocError>
        ensures same { self.new.pool ≡ self.old.pool }
    {
        let rt = self.rt;
        for _ in rt.forever() {
            self.shutting.reserve_message()?;
            match self.taken(machine)? {
                Some(message) => self.shutting.hand_out(message),
                None => break,
            }
        }
        Ok(())
    }

    /// The first message of a machine, which is taken out; `None` where it has none.
    fn taken(&self, machine: &Machine<M>) -> Result<Option<Message<M::Content>>, AllocError> {
        let Some(token) = machine.token(&self.rt) else {
            return Ok(None);
        };
        match machine.take_out(&self.rt, token) {
            Ok(message) => Ok(message),
            Err(refused) if refused.refusal == Refusal::NoMemory => Err(AllocError),
            Err(_) => Ok(None),
        }
    }

    /// What was found, which is told once.
    fn told(&mut self) -> ShutDown<M::Content>
        ensures same { self.new.pool ≡ self.old.pool }
    {
        let undelivered = self.hall.undelivered();
        let nothing = ShutDown::new(self.alloc, undelivered);
        let found = mem::replace(&mut self.shutting.found, nothing);
        let turns = found.turns.saturating_add(self.shutting.made);
        ShutDown {
            turns,
            undelivered,
            ..found
        }
    }
}
