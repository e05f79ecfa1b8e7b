//! The data of a cabin.

use st_events::{MachineId, Tag};

/// Where the cabin is, where it goes, and for whom.
///
/// Manual: `data()`.
#[derive(Clone, Copy)]
pub struct Journey {
    /// The door.
    pub door: MachineId,
    /// The floor at which it is, or which it passed last.
    pub floor: u8,
    /// The floor to which it goes.
    pub target: u8,
    /// The call that is to be answered there, if there is one.
    pub caller: Option<Tag>,
    /// How often the door may still be told to close.
    pub tries: u8,
}
