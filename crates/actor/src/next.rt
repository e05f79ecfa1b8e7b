//! What waiting for an event gave.

use crate::Event;

/// What waiting for an event gave.
pub(crate) enum Next<C> {
    /// An event.
    Event(Event<C>),
    /// So long was waited, and none came.
    Due,
    /// Nobody sends any more.
    Left,
}
