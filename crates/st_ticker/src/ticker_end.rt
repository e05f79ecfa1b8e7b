//! What a ticker's thread leaves.

use st_hall::Token;

/// What a ticker's thread leaves.
///
/// Ours: docs/DECISIONS.md, Tickers.
#[derive(Clone, Copy)]
pub struct TickerEnd {
    /// How many ticks it made; where there were more, 2^64 - 1.
    pub ticks: u64,
    /// The token that it could not schedule before it ended, if there is one: whoever has this has that token.
    pub left: Option<Token>,
}
