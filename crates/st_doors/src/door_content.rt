//! The content of a door's events and replies.
use st_events::MachineId;

/// What a door's event or reply says.
#[derive(Clone, Copy, Debug, PartialEq, Eq)]
pub enum DoorContent {
    /// The button of a digit was pressed.
    Button(u8),
    /// How many digits has the code?
    CodeLength,
    /// The code has so many digits.
    Length(usize),
    /// What a time-out of the door says.
    Nothing,
    /// The button of a digit is to be sent to the machine of an id.
    Relay(MachineId, u8),
}
