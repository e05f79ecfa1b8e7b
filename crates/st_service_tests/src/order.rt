//! What a clerk is told.
use st_service::MachineId;

/// What a clerk is told.
#[derive(Clone, Copy, Debug, PartialEq, Eq)]
pub enum Order {
    /// To add a number.
    Add(u32),
    /// To reply with the sum.
    Ask,
    /// To reply with the sum, and to add a number then.
    Take(u32),
    /// The sum.
    Sum(u32),
    /// To shut the window.
    Shut,
    /// To open it.
    Open,
    /// To tell another to open.
    Tell(MachineId),
    /// To send this to itself.
    Bounce,
    /// To go on and on.
    Spin,
    /// To add one after so many milliseconds.
    Later(u32),
}
