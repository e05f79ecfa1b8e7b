//! Turns of a machine of a hall by a worker, behind a gate: one at which nobody waits, or a ticker.
use crate::halls::empty;
use crate::load::{Load, Work};
use crate::rounds::worker;
use crate::silent::Silent;
use crate::watch::LoadTicker;
use st_core::{Entry, MachineId, Refusal};
use st_hall::{Hall, Machine, Port, Started};
use st_pool::{Gate, Runtime, Token, Worker};
use st_ticker::Ticker;
use std::alloc::Global;
use std::rt::Clock;
use std::sync::Arc;
use std::time::Instant;

/// How many turns are made before the journal is cut.
const MOST: u32 = 32;

/// How far a time-out lies that is to run on, in milliseconds.
const FAR: u32 = 1_000_000_000;

/// A machine of a hall, with one of its ports, and the worker that serves it.
#[derive(Drop)]
struct TurnedByWorker<R: Runtime> {
    rt: R,
    hall: Arc<Hall<Load, R>>,
    machine: Arc<Machine<Load>>,
    port: Port<Load>,
    worker: Worker<Work>,
    turns: u32,
}

/// Starts a machine, and makes its worker.
fn turned<R: Runtime>(
    rt: R,
    alloc: Global,
    hall: &Arc<Hall<Load, R>>,
) -> Result<Option<TurnedByWorker<R>>, Refusal> {
    let id = match hall.start(None, Load, &0, 0) {
        Ok(Started::Running { id, .. }) => id,
        Ok(_) => return Ok(None),
        Err(refused) => return Err(refused.refusal),
    };
    with_worker(rt, alloc, hall, id)
}

/// The worker of a machine.
fn with_worker<R: Runtime>(
    rt: R,
    alloc: Global,
    hall: &Arc<Hall<Load, R>>,
    id: MachineId,
) -> Result<Option<TurnedByWorker<R>>, Refusal> {
    let machine = hall.machine(id)?;
    let port = Machine::port(&machine, &rt)?;
    let hall = Arc::try_clone(hall)?;
    match worker(alloc, 0)? {
        Some(worker) => Ok(Some(TurnedByWorker {
            rt,
            hall,
            machine,
            port,
            worker,
            turns: 0,
        })),
        None => Ok(None),
    }
}

impl<R: Runtime> TurnedByWorker<R> {
    /// Posts a piece of work, and has the worker make a round behind a gate. Answers 1 where it served the machine.
    fn turn<G: Gate>(&mut self, gate: &G, work: Work) -> Result<u64, Refusal> {
        match self.port.post(&self.rt, Entry::Cast, work) {
            Ok(posted) => {
                if let Some(token) = posted.wake {
                    self.put(token)?;
                }
            }
            Err(refused) => return Err(refused.refusal),
        }
        self.turns = self.turns.saturating_add(1);
        if self.turns % MOST == 0 {
            self.machine.cut(&self.rt)?;
        }
        if self.worker.transit.woken.is_some() {
            return Ok(0);
        }
        let served = self.worker.round(&self.rt, &*self.hall, gate);
        Ok(u64::from(served))
    }

    /// The machine's token goes on the worker's queue.
    fn put(&mut self, token: Token) -> Result<(), Refusal> {
        match self.worker.lane.put_local(token) {
            Ok(()) => Ok(()),
            Err(_) => Err(Refusal::NoMemory),
        }
    }

    /// So many time-outs run from now on, and then so many turns are made that change none: these are counted.
    fn turn_each<G: Gate>(&mut self, gate: &G, count: u32, timers: u32) -> Result<u64, Refusal> {
        for timer in 0..timers {
            self.turn(gate, Work::Set(timer, FAR))?;
        }
        let mut served = 0u64;
        for _ in 0..count {
            served = served.saturating_add(self.turn(gate, Work::Keep)?);
        }
        Ok(served)
    }
}

/// A worker makes so many turns of a machine of a hall with so many running time-outs, behind a gate.
fn served<R: Runtime, G: Gate>(
    rt: R,
    alloc: Global,
    hall: &Arc<Hall<Load, R>>,
    gate: &G,
    count: u32,
    timers: u32,
) -> Result<u64, Refusal> {
    match turned(rt, alloc, hall)? {
        Some(mut turned) => {
            let served = turned.turn_each(gate, count, timers);
            drop(turned);
            served
        }
        None => Ok(0),
    }
}

/// A worker makes so many turns of a machine with so many running time-outs, behind a gate at which nobody waits.
pub fn turns<R: Runtime>(rt: R, alloc: Global, count: u32, timers: u32) -> Result<u64, Refusal> {
    let hall = empty(rt, alloc)?;
    let served = served(rt, alloc, &hall, &Silent, count, timers);
    drop(hall);
    served
}

/// The same, with a ticker as the gate.
pub fn ticked_turns<R: Runtime + Clock>(
    rt: R,
    alloc: Global,
    count: u32,
    timers: u32,
) -> Result<u64, Refusal> {
    let hall = empty(rt, alloc)?;
    let Ok(start) = Instant::now(&rt) else {
        return Ok(0);
    };
    let ticker: Arc<LoadTicker<R>> = Ticker::new(rt, alloc, start, &hall)?;
    let served = served(rt, alloc, &hall, &*ticker, count, timers);
    drop(ticker);
    drop(hall);
    served
}
