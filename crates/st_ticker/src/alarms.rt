//! When machines are to be visited, and whether a ticker is to end.
ghost use Rattle.std.specs.Prelude.{◌≡◌, true, false, [], is_some, IsOk, IfOk, OnOk, OnErr};
ghost use Rattle.st_due.specs.Machines.{moment_of, first_moment, without_noted};
ghost use Rattle.st_ticker.specs.Alarms.{with_visit, next_of, noted_after};

use crate::next::Next;
use st_due::DueQueue;
use st_hall::MachineId;
use std::alloc::{AllocError, Global};

/// The machines that are to be visited, each at a moment at which it may be due, or earlier; and whether those who visit
/// them are to end.
#[derive(Drop)]
pub(crate) struct Alarms {
    visits: DueQueue,
    is_ending: bool,
}

impl Alarms {
    /// No machine, and nobody is to end. It takes no memory.
    pub(crate) fn new(alloc: Global) -> Alarms
        ensures { (result.visits.machines ≡ []) × (result.is_ending ≡ false) }
    {
        Alarms {
            visits: DueQueue::new(alloc),
            is_ending: false,
        }
    }

    /// A machine is to be visited at a moment, unless it is to be visited as early already. Answers whether the first of
    /// all visits is earlier now. Where memory is wanted and there is none, nothing changes.
    pub(crate) fn note(&mut self, machine: MachineId, moment: u64) -> Result<bool, AllocError>
        ensures noted { OnOk result (self.new.visits.machines ≡ with_visit machine moment self.old.visits.machines) }
        ensures first { IfOk result (λ is_first. is_first ≡ false → first_moment self.new.visits.machines ≡ first_moment self.old.visits.machines) }
        ensures same { self.new.is_ending ≡ self.old.is_ending }

        ensures enough { is_some (moment_of machine self.old.visits.machines) ≡ true → IsOk result }
        ensures unchanged { OnErr result (self.new ≡ self.old) }
    {
        match self.visits.moment_of(machine) {
            Some(known) if known <= moment => return Ok(false),
            Some(_) => {}
            None => self.visits.reserve(1)?,
        }
        let first = self.visits.first();
        self.visits.note(machine, moment);
        Ok(self.visits.first() != first)
    }

    /// A machine is not to be visited any more. Answers whether it was.
    pub(crate) fn forget(&mut self, machine: MachineId) -> bool
        ensures was { result ≡ is_some (moment_of machine self.old.visits.machines) }
        ensures left { self.new ≡ record self.old { visits = without_noted self.old.visits machine } }
    {
        let was = self.visits.moment_of(machine).is_some();
        self.visits.forget(machine);
        was
    }

    /// What is to be done next, at a moment. A machine that is to be visited is not noted any more.
    pub(crate) fn next(&mut self, now: u64) -> Next
        ensures next { result ≡ next_of self.old.is_ending now self.old.visits.machines }
        ensures left { self.new.visits.machines ≡ noted_after self.old.is_ending now self.old.visits.machines }
        ensures same { self.new.is_ending ≡ self.old.is_ending }
    {
        if self.is_ending {
            return Next::End;
        }
        if let Some(due) = self.visits.take(now) {
            return Next::Visit(due.machine);
        }
        match self.visits.first() {
            Some(first) => Next::Doze(first.saturating_sub(now)),
            None => Next::Sleep,
        }
    }

    /// Whoever visits the machines is to end.
    pub(crate) fn end(&mut self)
        ensures { self.new ≡ record self.old { is_ending = true } }
    {
        self.is_ending = true;
    }

    /// Says whether whoever visits the machines is to end.
    pub(crate) fn is_ending(&self) -> bool
        ensures { result ≡ self.now.is_ending }
    {
        self.is_ending
    }
}
