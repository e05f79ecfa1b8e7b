//! A pool of workers.
ghost use Rattle.std.specs.Prelude.{◌≡◌, ◌≤◌, ◌<◌, ◌+◌, IfErr, IfOk, OnOk, vec_len, vec_capacity};

use crate::injector::Injector;
use crate::pool_end::PoolEnd;
use crate::pool_state::PoolState;
use crate::sleeper::Sleeper;
use crate::work::{EndedWorker, work};
use crate::{Runtime, Scheduler};
use crossbeam_utils::sync::Parker;
use st_events::{Message, Token};
use st_runq::{Inlet, PutRefused, Seats};
use st_worker::{Gate, Machines, Worker};
use std::alloc::{AllocError, Global};
use std::sync::{Arc, Wait};
use std::thread::{JoinHandle, Threads};
use std::{mem, thread};

/// Workers in threads of their own, which serve the machines of the tokens that it is given.
///
/// A pool that is let go ends its threads first: each after the turn that it is in.
///
/// Ours: docs/DECISIONS.md, Pools.
pub struct Pool<R: Threads + Wait + Drop, C: Drop> {
    rt: R,
    alloc: Global,
    state: Arc<PoolState, Global>,
    threads: Vec<JoinHandle<EndedWorker<C>>>,
    ended: Vec<Worker<C>>,
    turns: u64,
    left: Vec<Token>,
    carried: Vec<(Token, Message<C>)>,
    ghost room: { vec_len threads + vec_len ended ≤ vec_capacity ended },
    ghost room_left: { vec_len threads + vec_len left ≤ vec_capacity left },
    ghost room_carried: { vec_len threads + vec_len carried ≤ vec_capacity carried },
}

impl<R: Threads + Wait + Drop, C: Drop> Drop for Pool<R, C> {
    fn drop(mut self) {
        self.stop();
        let Pool {
            rt: _,
            alloc: _,
            state: _,
            threads: _,
            ended: _,
            turns: _,
            left: _,
            carried: _,
        } = self;
    }
}

impl<R: Threads + Wait + Drop, C: Drop> Pool<R, C> {
    ghost use Rattle.st_pool.specs.Pool.{threads_of};

    /// Ends all threads. Each gives its worker back, for which there is room, and for what it carries too.
    fn stop(&mut self)
        ensures joined { threads_of self.new ≡ 0 }
        ensures ended { vec_len self.new.ended ≡ vec_len self.old.ended + threads_of self.old }
    {
        self.state.close(&self.rt);
        while let Some(thread) = self.threads.pop() {
            let EndedWorker { mut worker, turns } = thread.join(&self.rt);
            self.turns = self.turns.saturating_add(turns);
            let tokens = worker.hand_over(&mut self.left, &mut self.carried);
            self.state.rest_each(&self.rt, tokens);
            self.ended.push_reserved(worker);
        }
    }
}

impl<R: Runtime, C: Drop + Send + 'static> Pool<R, C> {
    ghost use Rattle.st_pool.specs.Pool.{threads_of};

    /// Starts 1 to 16 workers, each in a thread of its own, with no token.
    ///
    /// Where there is no memory for all of them, or no thread, none is left running.
    ///
    /// Ours: docs/DECISIONS.md, Pools.
    pub fn start<M, G>(
        rt: R,
        alloc: Global,
        workers: usize,
        machines: &Arc<M, Global>,
        gate: &Arc<G, Global>,
    ) -> Result<Pool<R, C>, AllocError>
    where
        M: Machines<Content = C> + Drop + Send + Sync + 'static,
        G: Gate + Drop + Send + Sync + 'static,
        requires { (1 ≤ workers) × (workers ≤ 16) }
        ensures threads { IfOk result (λ pool. threads_of pool ≡ workers) }
    {
        let inlet = Inlet::new(alloc)?;
        let mut seats = Seats::for_workers(alloc, &inlet, workers)?;
        let (mut parkers, sleepers) = places_to_sleep(alloc, workers)?;
        let state = Arc::new(alloc, PoolState::new(Injector::new(inlet), sleepers))?;
        let mut pool = Pool {
            rt,
            alloc,
            state,
            threads: Vec::new(alloc),
            ended: Vec::new(alloc),
            turns: 0,
            left: Vec::new(alloc),
            carried: Vec::new(alloc),
        };
        // From the last on, so that each worker gets the parker of its own sleeper.
        for started in 0..workers {
            let Some(seats) = seats.pop() else {
                unreachable!()
            };
            let Some(parker) = parkers.pop() else {
                unreachable!()
            };
            pool.add(workers - 1 - started, seats, parker, machines, gate)?;
        }
        Ok(pool)
    }

    /// Gets room for one more thread, for the worker that it gives back, and for what that carries then.
    fn reserve_one(&mut self) -> Result<(), AllocError>
        ensures threads { threads_of self.new ≡ threads_of self.old }
        ensures room { OnOk result (vec_len self.new.threads < vec_capacity self.new.threads) }
        ensures room_ended { OnOk result (vec_len self.new.threads + 1 + vec_len self.new.ended ≤ vec_capacity self.new.ended) }
        ensures room_left { OnOk result (vec_len self.new.threads + 1 + vec_len self.new.left ≤ vec_capacity self.new.left) }
        ensures room_carried { OnOk result (vec_len self.new.threads + 1 + vec_len self.new.carried ≤ vec_capacity self.new.carried) }
    {
        self.threads.reserve(1)?;
        self.ended.reserve(self.threads.len() + 1)?;
        self.left.reserve(self.threads.len() + 1)?;
        self.carried.reserve(self.threads.len() + 1)
    }

    /// Starts the thread of the worker of this number. Before that it gets the room for the worker that comes back, and for
    /// what it carries then.
    fn add<M, G>(
        &mut self,
        number: usize,
        seats: Seats,
        parker: Parker,
        machines: &Arc<M, Global>,
        gate: &Arc<G, Global>,
    ) -> Result<(), AllocError>
    where
        M: Machines<Content = C> + Drop + Send + Sync + 'static,
        G: Gate + Drop + Send + Sync + 'static,
        ensures added { OnOk result (threads_of self.new ≡ threads_of self.old + 1) }
    {
        self.reserve_one()?;
        let rt = self.rt;
        let state = Arc::try_clone(&self.state)?;
        let machines = Arc::try_clone(machines)?;
        let gate = Arc::try_clone(gate)?;
        let thread = thread::spawn(&rt, move || {
            let worker = Worker::new(number, seats);
            work(&rt, worker, parker, &state, &*machines, &*gate)
        })?;
        self.threads.push_reserved(thread);
        Ok(())
    }

    /// Makes a scheduler, which gives this pool tokens from any thread. `Err`: there are as many as can be counted.
    ///
    /// Ours: docs/DECISIONS.md, Pools.
    pub fn scheduler(&self) -> Result<Scheduler, AllocError> {
        let state = Arc::try_clone(&self.state)?;
        Ok(Scheduler::new(state))
    }

    /// Gives a token to the workers, behind those that wait on the shared run queue. That it is served, no contract says.
    ///
    /// Refused where the pool is closed, there is no memory, or 2^64 - 1 tokens were scheduled; then the token comes
    /// back, and nothing changes.
    ///
    /// Ours: docs/DECISIONS.md, Pools.
    pub fn schedule(&self, token: Token) -> Result<(), PutRefused>
        ensures returned { IfErr result (λ e. e.0 ≡ token) }
    {
        self.state.schedule(&self.rt, token)
    }

    /// Waits until no token is on a run queue or with a worker. After `close` it comes back at once.
    ///
    /// Ours: docs/DECISIONS.md, Pools.
    pub fn drain(&self) {
        self.state.drain(&self.rt)
    }

    /// Closes the pool: no token comes in any more, each worker ends after the turn that it is in, and the tokens that
    /// did not come to rest are handed out, and the messages that workers carry, each with its token. A pool that was
    /// closed has none left.
    ///
    /// Where there is no memory for the list of those tokens, the pool is closed and keeps them with the messages, and the
    /// call may be made again.
    ///
    /// Ours: docs/DECISIONS.md, Pools.
    pub fn close(&mut self) -> Result<PoolEnd<C>, AllocError>
        ensures joined { threads_of self.new ≡ 0 }
    {
        self.stop();
        let rt = self.rt;
        for worker in self.ended.iter_mut() {
            for _ in rt.forever() {
                self.left.reserve(1)?;
                if !worker.acquire(&rt) {
                    break;
                }
                if let Some(token) = worker.hand.take() {
                    self.left.push_reserved(token);
                    self.state.rest(&rt);
                }
            }
        }
        let left = mem::replace(&mut self.left, Vec::new(self.alloc));
        let carried = mem::replace(&mut self.carried, Vec::new(self.alloc));
        Ok(PoolEnd {
            turns: self.turns,
            left,
            carried,
        })
    }
}

/// So many parkers, and for each, in the same order, where its worker sleeps.
fn places_to_sleep(alloc: Global, count: usize) -> Result<(Vec<Parker>, Vec<Sleeper>), AllocError>
    ensures parkers { IfOk result (λ places. vec_len places.0 ≡ count) }
{
    let mut parkers = Vec::new(alloc);
    let mut sleepers = Vec::new(alloc);
    for made in 0..count {
        let parker = Parker::new(alloc)?;
        sleepers.push(Sleeper::new(parker.unparker().clone()?))?;
        parkers.push(parker)?;
    }
    Ok((parkers, sleepers))
}
