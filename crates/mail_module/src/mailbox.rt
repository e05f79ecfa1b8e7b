//! What a mailbox is.

use st_events::MachineId;

/// Whose mailbox it is, what opens it, and what is in it.
///
/// Ours: the argument of a start.
#[derive(Clone, Copy)]
pub struct Mailbox {
    /// To whom lines go that answer no call.
    pub client: MachineId,
    /// The owner's name, a number.
    pub owner: u32,
    /// The owner's PIN.
    pub pin: u32,
    /// How many mails there are: their numbers are 1 to this.
    pub mails: u32,
}
