//! Why a line is refused, or the mailbox ends.

/// What follows `-ERR`.
///
/// Ours: the faults of a small mailbox.
#[derive(Clone, Copy, PartialEq, Eq)]
pub enum Fault {
    /// The line is no command. Ours: `-ERR no command`.
    NoCommand,
    /// The command does not fit the state. Ours: `-ERR not now`.
    NotNow,
    /// The PIN is not that of the mailbox, or the name is not. Ours: `-ERR wrong`.
    Wrong,
    /// There is no mail of this number. Ours: `-ERR no mail`.
    NoMail,
    /// Nothing came for too long. Ours: `-ERR idle`.
    Idle,
    /// The login took too long. Ours: `-ERR late`.
    Late,
    /// The mailbox is about to end. Ours: `-ERR closing`.
    Closing,
}
