//! How an event comes from outside.

/// The way in which an event is posted.
///
/// Manual: `call/2`, `cast/2`, and messages from elsewhere, which are `info`.
#[derive(Clone, Copy, Debug, PartialEq, Eq)]
pub enum Entry {
    /// A call: it opens a request.
    Call,
    /// A cast.
    Cast,
    /// Any other message.
    Info,
}
