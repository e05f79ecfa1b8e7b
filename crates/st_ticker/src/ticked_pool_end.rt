//! What a closed pool with a ticker leaves.

use st_hall::Token;
use st_pool::PoolEnd;

/// What a closed pool with a ticker leaves.
///
/// Ours: docs/DECISIONS.md, Tickers.
#[derive(Drop)]
pub struct TickedPoolEnd<C> {
    /// What the pool leaves.
    pub pool: PoolEnd<C>,
    /// How many ticks the ticker made; where there were more, 2^64 - 1.
    pub ticks: u64,
    /// The token that the ticker could not schedule, if there is one. It did not come to rest either.
    pub left: Option<Token>,
}
