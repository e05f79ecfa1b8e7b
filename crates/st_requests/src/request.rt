//! A request as it is kept.
ghost use Rattle.std.specs.Prelude.{◌≡◌, Some, option_copied, IfOk};
ghost use Rattle.st_requests.specs.Requests.{is_waiting, reply_of, answered, collected_of, closed};

use crate::{Collected, RequestState};
use st_events::{CopyContent, Reason, Tag};
use std::alloc::{AllocError, Global};

/// A request: its tag, and what stands for it.
///
/// Manual: `from()`.
#[derive(Debug, PartialEq, Eq, Drop)]
pub struct Request<C> {
    /// Its name.
    pub tag: Tag,
    /// What stands for it.
    pub held: RequestState<C>,
}

impl<C> Request<C> {
    /// Says whether it is open.
    pub(crate) fn is_open(&self) -> bool
        ensures { result ≡ is_waiting self.now.held }
    {
        matches!(self.held, RequestState::Open)
    }

    /// The reply, where one is kept.
    pub(crate) fn reply(&self) -> Option<&C>
        ensures { option_copied result ≡ reply_of (Some self.now.held) }
    {
        match &self.held {
            RequestState::Reply(content) => Some(content),
            RequestState::Open | RequestState::Stopped(_) => None,
        }
    }

    /// A copy; a copier copies the reply. It may find no memory.
    pub(crate) fn copy<K: CopyContent<C>>(
        &self,
        alloc: Global,
        copier: &K,
    ) -> Result<Request<C>, AllocError>
        ensures { IfOk result (λ copy. copy ≡ self.now) }
    {
        let held = self.held.copy(alloc, copier)?;
        Ok(Request {
            tag: self.tag,
            held,
        })
    }

    /// What is collected of it.
    pub(crate) fn into_collected(self) -> Collected<C>
        ensures { result ≡ collected_of (Some self.held) }
    {
        match self.held {
            RequestState::Open => Collected::Waiting,
            RequestState::Reply(content) => Collected::Reply(content),
            RequestState::Stopped(reason) => Collected::Stopped(reason),
        }
    }
}

impl<C: Drop> Request<C> {
    /// Answers it, where it is open, and says whether it was.
    pub(crate) fn answer(&mut self, content: C) -> bool
        ensures was_open { result ≡ is_waiting self.old.held }
        ensures answered { self.new ≡ record self.old { held = answered content self.old.held } }
    {
        let is_open = self.is_open();
        if is_open {
            self.held = RequestState::Reply(content);
        }
        is_open
    }

    /// Closes it for a reason, where it is open.
    pub(crate) fn close(&mut self, reason: Reason)
        ensures { self.new ≡ record self.old { held = closed reason self.old.held } }
    {
        if self.is_open() {
            self.held = RequestState::Stopped(reason);
        }
    }
}
