//! What a caller gets who asks for a reply.

use st_events::Reason;

/// What is collected for a tag.
///
/// Manual: `receive_response/1`, `check_response/2`, where a term stands for each of the first three; the last is
/// ours.
#[derive(Debug, PartialEq, Eq, Drop)]
pub enum Collected<C> {
    /// The request is open: no reply has come.
    Waiting,
    /// The reply.
    Reply(C),
    /// No reply comes: the machine stopped before it replied, for this reason.
    Stopped(Reason),
    /// There is nothing: no such request was opened, or it was collected.
    Gone,
}
