//! What a caller gets who asks about a collection.

use st_lock::Reason;

/// What asking about the requests of a collection answers.
///
/// Manual: `check_response/3`, where a term stands for each of the first four; the last is ours.
#[derive(Debug, PartialEq, Eq, Drop)]
pub enum Checked<C, L> {
    /// The collection is empty.
    NoRequest,
    /// Each request waits for its reply.
    NoReply,
    /// The reply to a request, and the request's label.
    Response(C, L),
    /// No reply comes to a request: the machine stopped before it replied, for this reason. With the request's label.
    Stopped(Reason, L),
    /// Nothing is held for a request: it was never opened, or it was collected. With the request's label.
    Gone(L),
}
