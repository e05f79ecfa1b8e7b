//! A machine's snapshot.
ghost use Rattle.std.specs.Prelude.{◌≡◌, IfOk, IfErr};
ghost use Rattle.st_events.specs.declared.refusal.Refusal.TheVariants.{NoMemory};

use crate::{Core, MachineState};
use st_events::{Module, Refusal};

/// A machine's snapshot: all of it but its module, as a value of its own. Two of them can be compared and printed.
///
/// Manual: `sys:get_state/1`, whose result is the state and the data alone.
pub type Snapshot<M> = MachineState<
    <M as Module>::State,
    <M as Module>::Data,
    <M as Module>::Content,
>;

impl<M: Module> Core<M> {
    /// The whole machine as a value of its own: state, data, what waits, what is postponed, which time-outs run, the
    /// requests with their replies, the messages that were not taken out yet, the latest moment, the next numbers, and how
    /// it ended. The module copies the data and the contents.
    ///
    /// Nothing changes. Refused with `NoMemory` where memory is wanted and there is none.
    ///
    /// It walks over what waits by the queue's cursor, which comes back, so it takes `&mut self`.
    ///
    /// Manual: `sys:get_state/1`; ours: docs/DECISIONS.md, Snapshots.
    pub fn snapshot(&mut self) -> Result<Snapshot<M>, Refusal>
        ensures snapshot { IfOk result (λ snapshot. snapshot ≡ self.old.machine) }
        ensures unchanged { self.new ≡ self.old }

        ensures refusals { IfErr result (λ refusal. refusal ≡ NoMemory) }
    {
        let data = self.module.copy_data(self.alloc, &self.data)?;
        let outbox = self.outgoing.copy(self.alloc, &self.module)?;
        let requests = self.requests.copy(&self.module)?;
        let schedule = self.agenda.copy(self.alloc, &self.module)?;
        Ok(MachineState {
            id: self.id,
            state: self.state,
            data,
            schedule,
            requests,
            outbox,
            latest: self.latest,
            ended: self.ended,
        })
    }
}
