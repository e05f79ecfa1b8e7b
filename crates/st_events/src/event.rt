//! What a machine handles.

use crate::Kind;

/// An event. Its number comes from one counter of its machine, so it names the event for good.
///
/// Manual: `event_type()`, `event_content()`. Ours: docs/DECISIONS.md, Numbers of events.
#[derive(Debug, PartialEq, Eq, Drop)]
pub struct Event<C> {
    /// Its number.
    pub number: u64,
    /// Its type.
    pub kind: Kind,
    /// Its content.
    pub content: C,
}
