//! The data of a door.

use crate::Digits;

/// The data of a door: its code, and the buttons that count towards it.
#[derive(Debug, Drop)]
pub struct DoorData {
    /// The code.
    pub code: Digits,
    /// The last buttons that were pressed, the oldest first.
    pub buttons: Digits,
}
