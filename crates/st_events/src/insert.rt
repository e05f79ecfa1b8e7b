//! Events that are to be inserted.

use crate::{Kind, SmallList};

/// An event that is to be inserted. It has no number yet.
///
/// Manual: `action()`, the bullet on `next_event`.
#[derive(Drop)]
pub struct Insert<C> {
    /// Its type.
    pub kind: Kind,
    /// Its content.
    pub content: C,
}

/// Events that are to be inserted, in the order in which they are to be handled. Up to four take no memory.
///
/// Manual: `action()`, the bullet on `next_event`.
pub type Inserts<C> = SmallList<Insert<C>>;
