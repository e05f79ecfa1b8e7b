//! What comes of a call.

use crate::RequestId;
use st_lock::{Module, Reason, Refusal, Token};

/// What comes of a call whose event was posted.
///
/// Manual: `call/2`.
#[derive(Drop)]
pub enum Called<M: Module> {
    /// The reply.
    Reply(M::Content),
    /// The machine ended for this reason, and had not replied.
    Stopped(Reason),
    /// Another has collected what was kept for the request.
    Gone,
    /// The reply or reason could not be handed out: `Exhausted` or `NoMemory`. It is kept, and can be asked for by the
    /// request's id.
    Uncollected(RequestId<M>, Refusal),
    /// The machine's token could not be scheduled, and nobody waited: the request stands, and can be asked for by its id.
    Unscheduled(RequestId<M>, Token),
}
