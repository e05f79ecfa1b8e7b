//! The data of a mailbox.

use crate::Mailbox;

/// The mailbox, and what the client said.
///
/// Manual: `data()`.
#[derive(Clone, Copy)]
pub struct Session {
    /// The mailbox.
    pub mailbox: Mailbox,
    /// The client's name, a number, and 0 before there is one.
    pub user: u32,
    /// How many wrong PINs end it.
    pub tries: u32,
}
