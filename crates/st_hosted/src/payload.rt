//! What events, replies and messages of hosted machines carry.
ghost use Rattle.std.specs.Prelude.{◌≡◌, [], IfOk};

use st_events::PlainList;
use std::alloc::{AllocError, Global};

/// A content: a number, which means what the host says, and bytes. Without bytes it takes no memory.
///
/// Manual: `event_content()`, which is any term.
#[derive(Drop)]
pub struct Payload {
    /// The host's number.
    pub code: u64,
    /// The bytes.
    pub bytes: PlainList<u8>,
}

impl Payload {
    /// A content without bytes. It takes no memory.
    ///
    /// Manual: `event_content()`.
    pub fn new(alloc: Global, code: u64) -> Payload
        ensures { result ≡ record { code = code; bytes = [] } }
    {
        Payload {
            code,
            bytes: PlainList::new(alloc),
        }
    }

    /// A content with a copy of these bytes. It may find no memory; without bytes it takes none.
    ///
    /// Manual: `event_content()`.
    pub fn of(alloc: Global, code: u64, bytes: &[u8]) -> Result<Payload, AllocError>
        ensures { IfOk result (λ payload. payload ≡ record { code = code; bytes = bytes.now }) }
    {
        let bytes = PlainList::copied(alloc, bytes)?;
        Ok(Payload { code, bytes })
    }
}
