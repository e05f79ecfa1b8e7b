//! What a ticker's thread runs.

use crate::TickerEnd;
use st_pool::Gate;
use st_wake::Wake;

/// Who ticks machines from a thread, and is the gate of the pool that serves them. A `Ticker` is one.
///
/// Ours: docs/DECISIONS.md, Tickers.
pub trait Ticks: Gate {
    /// Ticks the machines as they fall due, and schedules those that are issued a token by that, until it is ended. It
    /// sleeps in between. Threads that run one ticker share its machines.
    fn run<W: Wake>(&self, wake: &W) -> TickerEnd;

    /// Ends each `run`, after the tick that it is in.
    fn end(&self);
}
