//! Which request a reply is for.
ghost use Rattle.std.specs.Prelude.{◌≡◌};

use crate::MachineId;

/// A request: the machine that was called, and the number of the call's event.
///
/// Manual: `from()`.
#[derive(Clone, Copy, Debug, PartialEq, Eq, Hash)]
pub struct Tag {
    /// The machine that was called.
    pub machine: MachineId,
    /// The number of the call's event, as `post` answered it.
    pub request: u64,
}

impl Tag {
    /// The request of a call: the machine that was called, and the number of the call's event.
    ///
    /// Manual: `from()`.
    pub fn new(machine: MachineId, request: u64) -> Tag
        ensures { result ≡ record { machine = machine; request = request } }
    {
        Tag { machine, request }
    }
}
