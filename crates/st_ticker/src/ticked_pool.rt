//! A pool of workers with a ticker.
ghost use Rattle.std.specs.Prelude.{◌≡◌, ◌≤◌, IfOk};
ghost use Rattle.st_pool.specs.Pool.{threads_of};
ghost use Rattle.st_ticker.specs.Ended.{HasEnded};

use crate::{TickedPoolEnd, TickerThread, Ticks};
use st_hall::Token;
use st_pool::{Machines, Pool, Runtime};
use std::alloc::{AllocError, Global};
use std::sync::Arc;

/// Workers that serve machines whose time-outs come by themselves: a pool with a ticker as its gate, and the thread of
/// that ticker.
///
/// One that is let go ends the ticker's thread first, and then those of the workers.
///
/// Ours: docs/DECISIONS.md, Tickers.
#[derive(Drop)]
pub struct TickedPool<R: Runtime, C: Drop, T: Ticks + Drop> {
    // It stands before the pool, for the fields are let go in this order: the pool is there as long as the ticker has tokens
    // for it.
    thread: TickerThread<R, T>,
    pool: Pool<R, C>,
    // What the thread left, until it is told.
    left: Option<Token>,
}

impl<R: Runtime, C: Drop + Send + 'static, T: Ticks + Drop + Send + Sync + 'static> TickedPool<
    R,
    C,
    T,
> {
    /// Starts 1 to 16 workers, as `Pool::start` does, that serve machines behind a ticker of these machines, and the thread
    /// of that ticker. A ticker that was ended is not started again: its thread would end at once.
    ///
    /// Where there is no memory for all of them, or no thread, none is left running.
    ///
    /// Ours: docs/DECISIONS.md, Tickers, Pools.
    pub fn start<M>(
        rt: R,
        alloc: Global,
        workers: usize,
        machines: &Arc<M, Global>,
        ticker: &Arc<T, Global>,
    ) -> Result<TickedPool<R, C, T>, AllocError>
    where
        M: Machines<Content = C> + Drop + Send + Sync + 'static,
        requires { (1 ≤ workers) × (workers ≤ 16) }
        ensures threads { IfOk result (λ ticked. threads_of ticked.pool ≡ workers) }
    {
        let pool = Pool::start(rt, alloc, workers, machines, ticker)?;
        let scheduler = pool.scheduler()?;
        let thread = TickerThread::start(rt, ticker, scheduler)?;
        Ok(TickedPool {
            thread,
            pool,
            left: None,
        })
    }
}

impl<R: Runtime, C: Drop + Send + 'static, T: Ticks + Drop> TickedPool<R, C, T> {
    /// The pool, for its schedulers, and to give it tokens.
    ///
    /// Ours: docs/DECISIONS.md, Tickers.
    pub fn pool(&self) -> &Pool<R, C> {
        &self.pool
    }

    /// Ends the ticker's thread, and then closes the pool, as `Pool::close` does.
    ///
    /// Where there is no memory for the list of the pool's tokens, both are ended and keep what they have, and the call may
    /// be made again.
    ///
    /// Ours: docs/DECISIONS.md, Tickers, Pools.
    pub fn close(&mut self) -> Result<TickedPoolEnd<C>, AllocError>
        ensures joined { HasEnded self.new }
    {
        let end = self.thread.end();
        self.left = self.left.or(end.left);
        let pool = self.pool.close()?;
        Ok(TickedPoolEnd {
            pool,
            ticks: end.ticks,
            left: self.left.take(),
        })
    }
}
