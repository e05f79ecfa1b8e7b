//! What one end of a run queue has seen. It exists in proofs alone.
use st_events::Token;
use std::collections::LinkedList;

/// What one end of a run queue has put, and what it has taken: each token with its place among all that were put, from
/// 0 on. No value of it is made.
pub struct Seen {
    pub put: LinkedList<Token>,
    pub taken: LinkedList<(u64, Token)>,
}
