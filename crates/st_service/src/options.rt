//! What a service is started with.

use crate::Journals;

/// What a service is started with.
///
/// Ours: docs/DECISIONS.md, Services.
#[derive(Clone, Copy, Debug, PartialEq, Eq)]
pub struct Options {
    /// How many accepted events may wait at a machine: where as many wait, a post through the service is refused. Messages
    /// from machines are always delivered.
    pub waiting: usize,
    /// How much its machines keep of what they did.
    pub journals: Journals,
    /// How many turns `Service::shut_down` makes at most for what waits.
    pub turns: u64,
}
