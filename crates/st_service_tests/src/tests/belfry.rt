//! Bells in a hall with a ticker. Each call of a hall, of its machines and of a ticker stands here, once: it is proved anew in
//! each function that makes it.
use super::bell::{Bell, Order};
use super::bells::Bells;
use super::clocks::Clocks;
use super::host::{Host, got};
use super::patience::now;
use st_core::Time;
use st_hall::{Hall, Machine, MachineId, Refusal, Registry, Started, Token};
use st_lock::{Entry, Journal, Next};
use st_ticker::Ticker;
use std::alloc::Global;
use std::process::Abort;
use std::rt::Clock;
use std::sync::{Arc, Wait};

/// A hall of bells, and a ticker of it.
#[derive(Drop)]
pub struct Belfry<C: Wait + Clock + Drop> {
    pub clock: C,
    pub hall: Arc<Hall<Bell, C>>,
    pub ticker: Arc<Ticker<Bell, C>>,
}

impl<C: Wait + Clock + Drop> Belfry<C> {
    /// A hall with no bell, and its ticker. Where there is no memory, they are made again.
    pub fn new(rt: &Host<impl Abort>, alloc: Global, clocks: Clocks<C>) -> Belfry<C> {
        let Clocks {
            own,
            of_hall,
            of_ticker,
            spare,
        } = clocks;
        let start = now(rt, &own);
        let hall = rt.shares(alloc, Hall::new(of_hall, Registry::new(alloc)));
        let ticker = match Ticker::new(of_ticker, alloc, start, &hall) {
            Ok(ticker) => {
                drop(spare);
                ticker
            }
            Err(_) => {
                rt.retry();
                let made = Ticker::new(spare, alloc, start, &hall);
                made.expect(rt, "one allocation alone is refused")
            }
        };
        Belfry {
            clock: own,
            hall,
            ticker,
        }
    }

    /// The bell of an id.
    fn bell(&self, rt: &impl Abort, id: MachineId) -> Arc<Machine<Bell>> {
        got(rt, "it is there", self.hall.machine(id))
    }
}

impl<C: Wait + Clock + Drop> Bells for Belfry<C> {
    fn try_start(&self, times: &(Time, Time)) -> Result<Started, Refusal> {
        match self.hall.start(None, Bell, times, self.ticker.now()) {
            Ok(started) => Ok(started),
            Err(refused) => Err(refused.refusal),
        }
    }

    fn try_watch(&self, id: MachineId) -> Result<(), Refusal> {
        self.ticker.watch(id)
    }

    fn post(&self, rt: &impl Abort, id: MachineId, order: Order) -> Option<Token> {
        let machine = self.bell(rt, id);
        let mut port = got(rt, "a port", Machine::port(&machine, &self.clock));
        drop(machine);
        let posted = port.post(&self.clock, Entry::Cast, order);
        drop(port);
        got(rt, "it is posted", posted).wake
    }

    fn turn(&self, rt: &impl Abort, id: MachineId, token: Token) -> Next {
        let machine = self.bell(rt, id);
        let turned = machine.turn(&self.clock, token, self.ticker.now());
        drop(machine);
        got(rt, "it is served", turned)
    }

    fn remove(
        &self,
        rt: &impl Abort,
        id: MachineId,
        reason: u32,
    ) -> (Result<u32, Refusal>, Result<(), Refusal>) {
        let machine = self.bell(rt, id);
        let stopped = machine.stop(&self.clock, reason);
        drop(machine);
        (stopped, self.hall.remove_stopped(id))
    }

    fn see(&self, rt: &impl Abort, id: MachineId) -> (u32, bool) {
        let machine = self.bell(rt, id);
        let rang = machine.state(&self.clock);
        let is_ready = machine.is_ready(&self.clock);
        drop(machine);
        (rang, is_ready)
    }

    fn journal(&self, rt: &impl Abort, id: MachineId) -> Journal<u32, Order> {
        let machine = self.bell(rt, id);
        let journal = machine.journal(&self.clock, "bell");
        drop(machine);
        got(rt, "there is memory", journal)
    }
}
