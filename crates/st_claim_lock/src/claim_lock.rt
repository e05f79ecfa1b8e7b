//! A lock whose holders claim something of the value under it.
ghost use Rattle.std.specs.Prelude.{◌≡◌, ◌∷◌, [], Some};

use crate::hold::Hold;
use crate::steps::{ByTie, Takes};
use crate::{Holder, Taken, Tie};
use atomic_table::Table;
use std::alloc::{AllocFailed, Global};
use std::sync::{Mutex, Wait};

/// The word of the table while the value is at home.
pub(crate) const AT_HOME: u64 = 0;

/// The word while it is out.
const OUT: u64 = 1;

/// A lock over a value that threads share. Each holder claims something of the value, and its claim fits the value each
/// time that it takes it: whoever gives a value back shows that every claim fits it that fitted the one before.
///
/// The value lies in the one slot of a table. The gate lets one caller at a time to the table; the others sleep.
#[derive(Drop)]
pub struct ClaimLock<T, V, P: Tie<T, V>> {
    gate: Mutex<()>,
    pub(crate) table: Table<Option<T>, Hold<T, V>, (), ByTie<P>, Global>,
    ghost one_word: { table.shared.table_id.words ≡ 1 },
    ghost one_slot: { table.shared.table_id.slots ≡ 1 },
}

impl<T, V, P: Tie<T, V>> ClaimLock<T, V, P> {
    ghost use Rattle.std.specs.Prelude.{IfOk, IfErr};
    ghost use Rattle.st_claim_lock.specs.Holders.{lock_id, lock_of, claim_of, taken_from, value_taken, Claims, HasNothingOut, HasOut};

    /// Makes a lock over this value, and its first holder, which has the claim of a newcomer.
    ///
    /// Where there is no memory for it, the value comes back.
    pub fn new(
        alloc: Global,
        value: T,
    ) -> Result<(ClaimLock<T, V, P>, Holder<T, V>), AllocFailed<T>>
        requires { P.fits value P.first }
        ensures made { IfOk result (λ made. (lock_of made.1 ≡ lock_id made.0) × Claims made.1 P.first) }

        ensures returned { IfErr result (λ failed. failed.value ≡ value) }
    {
        let Ok(mut slots) = Vec::with_capacity(alloc, 1) else {
            return Err(AllocFailed { value });
        };
        slots.push_reserved(Some(value));
        match Table::new(alloc, &[AT_HOME], slots, &()) {
            Ok((table, seat)) => Ok((
                ClaimLock {
                    gate: Mutex::new(()),
                    table,
                },
                Holder { seat },
            )),
            Err(refused) => Err(AllocFailed {
                value: only_value(refused.slots),
            }),
        }
    }

    /// Takes the value, which the holder's claim fits. Until it is given back nobody else can take it: they wait.
    pub fn take<R: Wait>(&self, rt: &R, holder: &mut Holder<T, V>) -> (Taken<'_, T, V, P>, T)
        requires lock { lock_of holder.old ≡ lock_id self.now }
        requires home { HasNothingOut holder.old }
        ensures fits { P.fits result.1 (claim_of holder.old) }
        ensures taken { (taken_from result.0 ≡ lock_id self.now) × (value_taken result.0 ≡ result.1) }
        ensures out { HasOut holder.new (claim_of holder.old) result.1 }
        ensures same { lock_of holder.new ≡ lock_of holder.old }
    {
        let gate = self.gate.lock(rt);
        let Holder { seat } = holder;
        if self.table.shared.swap::<Takes<P>>(seat, 0, OUT) != AT_HOME {
            // No run comes here: whoever took the value kept the gate until it was at home.
            for _ in rt.forever() {}
            unreachable!()
        }
        let out = self.table.shared.exchange(seat, 0, None);
        let Some(value) = out else { unreachable!() };
        let taken = Taken::new(self, gate, &value);
        (taken, value)
    }

    /// Takes the value in the same way with a new holder, which has the claim of a newcomer: any value has to fit that.
    pub fn arrive<R: Wait>(&self, rt: &R) -> (Taken<'_, T, V, P>, T, Holder<T, V>)
        requires { (value : T) → P.fits value P.first }
        ensures taken { (taken_from result.0 ≡ lock_id self.now) × (value_taken result.0 ≡ result.1) }
        ensures out { HasOut result.2 P.first result.1 }
        ensures lock { lock_of result.2 ≡ lock_id self.now }
    {
        let gate = self.gate.lock(rt);
        let (found, mut seat) = self.table.shared.swap_new_seat::<Takes<P>>(0, OUT);
        if found != AT_HOME {
            // No run comes here: whoever took the value kept the gate until it was at home.
            for _ in rt.forever() {}
            unreachable!()
        }
        let out = self.table.shared.exchange(&mut seat, 0, None);
        let Some(value) = out else { unreachable!() };
        let taken = Taken::new(self, gate, &value);
        (taken, value, Holder { seat })
    }
}

/// The value of the one slot.
fn only_value<T>(mut slots: Vec<Option<T>>) -> T
    requires { (value : T) × (slots.items ≡ Some value ∷ []) }
    ensures { slots.items ≡ Some result ∷ [] }
{
    let last = slots.pop();
    let Some(Some(value)) = last else {
        unreachable!()
    };
    slots.destroy_empty();
    value
}
