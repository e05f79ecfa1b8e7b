//! What the mailbox says.

use crate::Fault;

/// A line to the client.
///
/// Ours: the replies of a small mailbox.
#[derive(Clone, Copy, PartialEq, Eq)]
pub enum Answer {
    /// The greeting. Ours: `+OK ready`.
    Ready,
    /// It is done. Ours: `+OK`.
    Fine,
    /// So many mails are there. Ours: `+OK N mails`.
    Mails(u32),
    /// The mail of this number. Ours: `+OK mail N`.
    Mail(u32),
    /// The last reply. Ours: `+OK bye`.
    Bye,
    /// It is refused. Ours: `-ERR` and why.
    Not(Fault),
}
