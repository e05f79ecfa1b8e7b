//! What an endpoint has seen. It exists in proofs alone.
use std::collections::LinkedList;

/// The posts that an endpoint has seen, in order. The machine's endpoint keeps all of them.
///
/// One that took in another has the longer of both lists, and until it compares them both lists too: its own, and the
/// one that it took in. No value of this is made.
pub struct Seen<T> {
    pub keeps: bool,
    pub posts: LinkedList<T>,
    pub own: LinkedList<T>,
    pub taken: LinkedList<T>,
}
