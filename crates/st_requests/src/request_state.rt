//! What stands for a request.
ghost use Rattle.std.specs.Prelude.{◌≡◌, IfOk};
ghost use Rattle.st_requests.specs.Requests.{held_of};

use crate::Held;
use st_events::{CopyContent, Reason};
use std::alloc::{AllocError, Global};

/// What stands for a request.
///
/// Manual: `reply/2`; `call/2`, on a machine that dies before it replies.
#[derive(Debug, PartialEq, Eq, Drop)]
pub enum RequestState<C> {
    /// No reply has come.
    Open,
    /// The reply, until it is collected.
    Reply(C),
    /// The reason for which the machine stopped, until it is collected.
    Stopped(Reason),
}

impl<C> RequestState<C> {
    /// What is held, without the reply.
    pub(crate) fn shown(&self) -> Held
        ensures { result ≡ held_of self.now }
    {
        match self {
            RequestState::Open => Held::Open,
            RequestState::Reply(_) => Held::Reply,
            RequestState::Stopped(reason) => Held::Stopped(*reason),
        }
    }

    /// A copy; a copier copies the reply. It may find no memory.
    pub(crate) fn copy<K: CopyContent<C>>(
        &self,
        alloc: Global,
        copier: &K,
    ) -> Result<RequestState<C>, AllocError>
        ensures { IfOk result (λ copy. copy ≡ self.now) }
    {
        match self {
            RequestState::Open => Ok(RequestState::Open),
            RequestState::Reply(content) => {
                let content = copier.copy_of(alloc, content)?;
                Ok(RequestState::Reply(content))
            }
            RequestState::Stopped(reason) => Ok(RequestState::Stopped(*reason)),
        }
    }
}
