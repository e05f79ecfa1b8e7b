//! The inner state of a machine while it is out of its lock.
ghost use Rattle.std.specs.Prelude.{◌≡◌, Some};
ghost use Rattle.st_claim_lock.specs.Holders.{lock_of, claim_of, taken_from, value_taken, HasOut};
ghost use Rattle.st_lock.specs.Claims.{HasSameCounters};

use crate::machine::{HolderOf, InnerOf, TakenOf, give_back};
use st_cell::Module;
use std::sync::MutexGuard;

/// What a newcomer has while the inner state of a machine is out of its lock: the place to which the state goes back, and
/// its own holder. They are one value, since letting go of a holder is proved anew in each body that owns one.
pub(crate) struct Held<'a, M: Module> {
    pub(crate) taken: TakenOf<'a, M>,
    pub(crate) holder: HolderOf<M>,
}

impl<'a, M: Module> Held<'a, M> {
    /// Gives the inner state back, whose endpoints are of the same counters.
    pub(crate) fn give_back(self, inner: InnerOf<M>) -> MutexGuard<'a, ()>
        requires lock { lock_of self.holder ≡ taken_from self.taken }
        requires out { HasOut self.holder (claim_of self.holder) (value_taken self.taken) }
        requires same { HasSameCounters (value_taken self.taken) inner.value }
    {
        let Held { taken, mut holder } = self;
        let guard = give_back(taken, &mut holder, inner);
        drop(holder);
        guard
    }
}
