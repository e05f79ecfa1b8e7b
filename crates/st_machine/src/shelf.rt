//! Where further descriptions come from.

use std::alloc::{AllocError, Global};

/// Where the descriptions come from that lines of events name.
pub trait Shelf {
    /// The bytes of the description of a name; `None` where there is none. It may find no memory.
    fn description(&mut self, alloc: Global, name: &str) -> Result<Option<Vec<u8>>, AllocError>;
}
