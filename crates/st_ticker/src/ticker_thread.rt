//! The thread of a ticker.
ghost use Rattle.std.specs.Prelude.{◌≡◌, None, IsSome, IfOk};

use crate::{TickerEnd, Ticks};
use st_hall::Token;
use st_pool::Runtime;
use st_wake::Wake;
use std::alloc::{AllocError, Global};
use std::sync::{Arc, Wait};
use std::thread;
use std::thread::{JoinHandle, Threads};

/// The thread in which a ticker ticks its machines.
///
/// One that is let go ends its thread first, after the tick that it is in, also where that sleeps.
///
/// Ours: docs/DECISIONS.md, Tickers.
pub struct TickerThread<R: Threads + Wait + Drop, T: Ticks + Drop> {
    rt: R,
    ticker: Arc<T, Global>,
    thread: Option<JoinHandle<TickerEnd>>,
    ticks: u64,
    left: Option<Token>,
}

impl<R: Threads + Wait + Drop, T: Ticks + Drop> Drop for TickerThread<R, T> {
    fn drop(mut self) {
        self.stop();
        let TickerThread {
            rt: _,
            ticker: _,
            thread: _,
            ticks: _,
            left: _,
        } = self;
    }
}

impl<R: Threads + Wait + Drop, T: Ticks + Drop> TickerThread<R, T> {
    /// Ends the thread, if it has not ended.
    fn stop(&mut self)
        ensures joined { self.new.thread ≡ None }
    {
        self.ticker.end();
        if let Some(thread) = self.thread.take() {
            let TickerEnd { ticks, left } = thread.join(&self.rt);
            self.ticks = ticks;
            self.left = left;
        }
    }

    /// Ends the thread, after the tick that it is in, and says what it leaves. A token that is left is told once.
    ///
    /// Ours: docs/DECISIONS.md, Tickers.
    pub fn end(&mut self) -> TickerEnd
        ensures joined { self.new.thread ≡ None }
        ensures once { self.new.left ≡ None }
    {
        self.stop();
        TickerEnd {
            ticks: self.ticks,
            left: self.left.take(),
        }
    }
}

impl<R: Runtime, T: Ticks + Drop + Send + Sync + 'static> TickerThread<R, T> {
    /// Starts the thread of a ticker, which schedules by `wake` the machines that it ticks. A ticker that was ended is not
    /// started again: its thread would end at once.
    ///
    /// Refused with `AllocError` where there is no thread, or the ticker has as many owners as can be counted; then no
    /// thread is left running.
    ///
    /// Ours: docs/DECISIONS.md, Tickers.
    pub fn start<W: Wake + Drop + Send + 'static>(
        rt: R,
        ticker: &Arc<T, Global>,
        wake: W,
    ) -> Result<TickerThread<R, T>, AllocError>
        ensures started { IfOk result (λ thread. IsSome thread.thread) }
    {
        let own = Arc::try_clone(ticker)?;
        let theirs = Arc::try_clone(ticker)?;
        let thread = thread::spawn(&rt, move || theirs.run(&wake))?;
        Ok(TickerThread {
            rt,
            ticker: own,
            thread: Some(thread),
            ticks: 0,
            left: None,
        })
    }
}
