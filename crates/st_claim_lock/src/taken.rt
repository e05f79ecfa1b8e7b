//! The value of a lock while it is out.
ghost use Rattle.std.specs.Prelude.{◌≡◌};
ghost use Rattle.st_claim_lock.specs.Holders.{lock_id, lock_of, claim_of, taken_from, value_taken, Claims, HasOut};

use crate::claim_lock::AT_HOME;
use crate::steps::{Gives, GivesBack};
use crate::{ClaimLock, Claimed, Holder, Tie};
use std::snapshot::Snapshot;
use std::sync::MutexGuard;

/// The value of a lock is out, and whoever has this is alone with it. It cannot be dropped: a value has to be given back.
pub struct Taken<'a, T, V, P: Tie<T, V>> {
    lock: &'a ClaimLock<T, V, P>,
    gate: MutexGuard<'a, ()>,
    was: Snapshot<T>,
}

impl<'a, T, V, P: Tie<T, V>> Taken<'a, T, V, P> {
    /// This value is out of the lock, and the caller has passed the gate.
    pub(crate) fn new(
        lock: &'a ClaimLock<T, V, P>,
        gate: MutexGuard<'a, ()>,
        value: &T,
    ) -> Taken<'a, T, V, P>
        ensures { (taken_from result ≡ lock_id lock.now) × (value_taken result ≡ value.now) }
    {
        Taken {
            lock,
            gate,
            was: Snapshot::of(value),
        }
    }

    /// Gives a value back, which every claim fits that fitted the one that was taken. The holder claims what it claimed.
    ///
    /// Answers the gate: it is to be dropped, at once or after the caller has waited with it for a `Condvar`. Until then
    /// nobody takes the value, the caller neither.
    pub fn give_back(self, holder: &mut Holder<T, V>, value: T) -> MutexGuard<'a, ()>
        requires lock { lock_of holder.old ≡ taken_from self }
        requires out { HasOut holder.old (claim_of holder.old) (value_taken self) }
        requires others { (claim : V) → P.fits (value_taken self) claim → P.fits value claim }
        ensures claims { Claims holder.new (claim_of holder.old) }
        ensures same { lock_of holder.new ≡ lock_of holder.old }
    {
        let Taken { lock, gate, was: _ } = self;
        let Holder { seat } = holder;
        let empty = lock.table.shared.exchange(seat, 0, Some(value));
        let None = empty else { unreachable!() };
        lock.table.shared.store::<GivesBack>(seat, 0, AT_HOME);
        gate
    }

    /// Gives a value back in the same way, and the holder claims something else from then on, which fits the value.
    pub fn give<J: Claimed<V>>(self, holder: &mut Holder<T, V>, value: T) -> MutexGuard<'a, ()>
        requires lock { lock_of holder.old ≡ taken_from self }
        requires out { HasOut holder.old (claim_of holder.old) (value_taken self) }
        requires others { (claim : V) → P.fits (value_taken self) claim → P.fits value claim }
        requires own { P.fits value J.claim }
        ensures claims { Claims holder.new J.claim }
        ensures same { lock_of holder.new ≡ lock_of holder.old }
    {
        let Taken { lock, gate, was: _ } = self;
        let Holder { seat } = holder;
        let empty = lock.table.shared.exchange(seat, 0, Some(value));
        let None = empty else { unreachable!() };
        lock.table.shared.store::<Gives<J>>(seat, 0, AT_HOME);
        gate
    }
}
