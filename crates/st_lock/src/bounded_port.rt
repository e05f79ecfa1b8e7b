//! A port that posts where there is room.
ghost use Rattle.std.specs.Prelude.{◌≡◌, length, IfOk, IfErr, IfSome, OnErr};
ghost use Rattle.st_core.specs.Callbacks.{callbacks_of};
ghost use Rattle.st_lock.specs.Bounded.{PostsWithin, content_in};
ghost use Rattle.st_lock.specs.Ports.{posted};

use crate::machine::give_back;
use crate::{Port, Unposted};
use st_cell::{Entry, Module, Posted};
use st_lock_inner::its_cell_is_journaled;
use std::sync::Wait;

impl<M: Module> Port<M> {
    /// Hands the machine an event from outside, as `post` does, where fewer than `limit` accepted events wait there: the look
    /// and the post are one critical section.
    ///
    /// Refused with `Busy` where as many wait, and as `post` is refused. Then nothing was posted, and the content comes back.
    ///
    /// Ours: docs/DECISIONS.md, Ports.
    pub fn post_within<R: Wait>(
        &mut self,
        rt: &R,
        limit: usize,
        entry: Entry,
        content: M::Content,
    ) -> Result<Posted, Unposted<M::Content>>
        ensures does { PostsWithin (callbacks_of M.Module M.State.eq) self.old.machine (length self.old.posts) limit entry content result }
        ensures token { IfOk result (λ answer. IfSome answer.wake (λ token. token.machine ≡ self.old.machine)) }
        ensures posted { IfOk result (λ answer. self.new ≡ posted (record { number = answer.number; entry = entry; content = content }) self.old) }

        ensures unchanged { OnErr result (self.new ≡ self.old) }
        ensures returned { IfErr result (λ unposted. content_in unposted ≡ content) }
    {
        let (taken, mut inner) = self.machine.take(
            rt,
            &mut self.holder,
            &self.counter,
            self.number,
            self.count,
        );
        its_cell_is_journaled(&inner);
        if limit <= inner.core().waiting() {
            drop(give_back(taken, &mut self.holder, inner));
            return Err(Unposted::Busy(content));
        }
        let answer = inner.post(&self.counter, &mut self.end, self.number, entry, content);
        drop(give_back(taken, &mut self.holder, inner));
        match answer {
            Ok(posted) => {
                self.count += 1;
                Ok(posted)
            }
            Err(refused) => Err(Unposted::Refused(refused)),
        }
    }
}
