//! A request of a test.
ghost use Rattle.std.specs.Prelude.{◌≡◌};

use st_collection::{Request, Tag};
use st_events::MachineId;

/// A request.
#[derive(Drop)]
pub struct Asked {
    tag: Tag,
}

/// The tag of a request of this number.
pub fn tag(request: u64) -> Tag {
    Tag {
        machine: MachineId { slot: 0, serial: 1 },
        request,
    }
}

impl Asked {
    /// A request of this number.
    pub fn new(request: u64) -> Asked {
        Asked { tag: tag(request) }
    }
}

impl Request for Asked {
    ghost tag_is = { λ asked. asked.tag };

    fn tag(&self) -> Tag {
        self.tag
    }
}
