//! Journals that stay short.
ghost use Rattle.std.specs.Prelude.{◌≡◌, IfOk, IfErr};
ghost use Rattle.st_events.specs.declared.refusal.Refusal.TheVariants.{NoMemory};
ghost use Rattle.st_core.specs.Callbacks.{callbacks_of};
ghost use Rattle.st_lock.specs.Bounded.{IsLongSomewhere, IsTakenBeyond};
ghost use Rattle.st_lock.specs.Machines.{id_of};

use crate::Machine;
use st_cell::{Journal, Module, Refusal};
use st_lock_inner::its_cell_is_journaled;
use std::sync::Wait;

impl<M: Module> Machine<M> {
    /// Cuts the journal, as `cut` does, where it has more entries than `limit`, and no fewer than events wait: so a cut, which
    /// copies what waits, copies no more than there were entries. Answers whether it did.
    ///
    /// Refused with `NoMemory` where memory is wanted and there is none; then nothing is cut.
    ///
    /// Ours: docs/DECISIONS.md, Journals.
    pub fn cut_beyond<R: Wait>(&self, rt: &R, limit: usize) -> Result<bool, Refusal>
        ensures long { IfOk result (λ is_cut. IsLongSomewhere (callbacks_of M.Module M.State.eq) (id_of self.now) limit is_cut) }

        ensures refusals { IfErr result (λ refusal. refusal ≡ NoMemory) }
    {
        let (held, mut inner) = self.arrive(rt);
        its_cell_is_journaled(&inner);
        let is_long = inner.is_long(limit);
        let answer = if is_long { inner.cut() } else { Ok(()) };
        drop(held.give_back(inner));
        match answer {
            Ok(()) => Ok(is_long),
            Err(refusal) => Err(refusal),
        }
    }

    /// Hands the journal out, with a label, and cuts it, as `take_journal` does, where it has more entries than `limit`, and
    /// no fewer than events wait. `None`: it is shorter, and stays.
    ///
    /// Refused with `NoMemory` where memory is wanted and there is none; then the journal stays.
    ///
    /// Ours: docs/DECISIONS.md, Journals.
    pub fn take_journal_beyond<R: Wait>(
        &self,
        rt: &R,
        limit: usize,
        label: &str,
    ) -> Result<Option<Journal<M::State, M::Content>>, Refusal>
        ensures taken { IfOk result (λ journal. IsTakenBeyond (callbacks_of M.Module M.State.eq) (id_of self.now) limit label.now journal) }

        ensures refusals { IfErr result (λ refusal. refusal ≡ NoMemory) }
    {
        let (held, mut inner) = self.arrive(rt);
        its_cell_is_journaled(&inner);
        if !inner.is_long(limit) {
            drop(held.give_back(inner));
            return Ok(None);
        }
        let answer = inner.take_journal(label);
        drop(held.give_back(inner));
        match answer {
            Ok(journal) => Ok(Some(journal)),
            Err(refusal) => Err(refusal),
        }
    }
}
