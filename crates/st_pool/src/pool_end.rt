//! What a closed pool leaves.
use st_events::{Message, Token};

/// What a closed pool leaves.
///
/// Ours: docs/DECISIONS.md, Pools.
#[derive(Drop)]
pub struct PoolEnd<C> {
    /// How many turns its workers made; where there were more, 2^64 - 1.
    pub turns: u64,
    /// The tokens that did not come to rest, each once, but for those that stand in `carried`.
    pub left: Vec<Token>,
    /// The messages that were taken out and not delivered, each with the token that its worker has.
    pub carried: Vec<(Token, Message<C>)>,
}
