//! A mail that is being taken.

use st_events::Tag;

/// Which mail is wanted, and by which call.
///
/// Ours: what the state `Busy` carries.
#[derive(Clone, Copy, PartialEq, Eq)]
pub struct Take {
    /// The call that is to be answered.
    pub tag: Tag,
    /// The mail's number.
    pub number: u32,
}
