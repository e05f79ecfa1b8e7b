//! What is read of a machine with its journal, and how its journal is cut.
ghost use Rattle.std.specs.Prelude.{◌≡◌, ◌≤◌, [], ◌++◌, length, vec_capacity, IfOk, IfErr, OnOk, OnErr, string_bytes};
ghost use Rattle.st_events.specs.declared.refusal.Refusal.TheVariants.{NoMemory, Exhausted};
ghost use Rattle.st_cell.specs.Calls.{opened, look_of, cut, IsJournalOf};
ghost use Rattle.st_cell.specs.Cell.{IsOpen, count_for, HasRoom};
ghost use Rattle.st_journal.specs.Journal.{numbers_of, posts_of};

use crate::copying::copied_entries;
use crate::journaled::{EntryOf, Journaled};
use crate::{Journal, JournalEntry, Look};
use st_core::{Answer, Command, Module, PlainList, Refusal, Snapshot};
use std::alloc::{AllocError, Global};
use std::mem;

/// The numbers of a port's events whose entries are in a journal, in order.
fn numbers_in<S, C>(
    entries: &[JournalEntry<S, C>],
    port: u64,
    alloc: Global,
) -> Result<PlainList<u64>, AllocError>
    ensures { IfOk result (λ numbers. numbers ≡ numbers_of (posts_of port entries.now)) }
{
    let mut numbers = Vec::new(alloc);
    for entry in entries {
        if let Some(number) = entry.posted_by(port) {
            numbers.push(number)?;
        }
    }
    Ok(PlainList::from(numbers))
}

impl<M: Module> Journaled<M> {
    /// Opens the next port, and answers its number.
    pub(crate) fn port(&mut self) -> Result<u64, Refusal>
        ensures number { IfOk result (λ number. number ≡ (opened self.old.cell).0) }
        ensures opened { OnOk result (self.new.cell ≡ (opened self.old.cell).1) }
        ensures room { HasRoom self.old → HasRoom self.new }

        ensures refusals { IfErr result (λ refusal. refusal ≡ NoMemory) }
        ensures unchanged { OnErr result (self.new.cell ≡ self.old.cell) }
    {
        if self.ports.push(0).is_err() {
            return Err(Refusal::NoMemory);
        }
        Ok(self.ports.len() as u64)
    }

    /// How many events a port has posted.
    pub(crate) fn count_for(&self, port: u64) -> u64
        requires { IsOpen port self.now.cell }
        ensures { result ≡ count_for port self.now.cell }
    {
        self.ports[port as usize - 1]
    }

    /// What is seen of the machine by a port.
    pub(crate) fn look(&self, port: u64) -> Result<Look<M::State, M::Data>, Refusal>
        requires { IsOpen port self.now.cell }
        ensures look { IfOk result (λ look. look ≡ look_of port self.now.cell) }

        ensures refusals { IfErr result (λ refusal. refusal ≡ NoMemory) }
    {
        let core = self.scheduled.core();
        let held = core.module().copy_data(self.alloc, core.data())?;
        let numbers = numbers_in(&self.journal, port, self.alloc)?;
        Ok(Look {
            state: core.state(),
            held,
            waiting: core.waiting(),
            entries: self.scheduled.count(),
            mine: self.count_for(port),
            numbers,
            ended: core.ended(),
        })
    }

    /// A copy of the journal.
    pub(crate) fn journal(&self, label: &str) -> Result<Journal<M::State, M::Content>, Refusal>
        ensures journal { IfOk result (λ journal. IsJournalOf self.now.cell label.now journal) }

        ensures refusals { IfErr result (λ refusal. refusal ≡ NoMemory) }
    {
        let core = self.scheduled.core();
        let entries = copied_entries(&self.journal, core.module(), self.alloc)?;
        let label = String::from_str(self.alloc, label)?;
        Ok(Journal {
            id: core.id(),
            label,
            from: self.base.latest,
            entries,
        })
    }

    /// What the machine as it is begins a journal with: its base, and no entry yet.
    fn fresh(&mut self) -> Result<(Snapshot<M>, Vec<EntryOf<M>>), Refusal>
        ensures base { IfOk result (λ fresh. fresh.0 ≡ self.old.cell.scheduled.core.machine) }
        ensures journal { IfOk result (λ fresh. (fresh.1.items ≡ []) × (1 ≤ vec_capacity fresh.1)) }
        ensures same { self.new ≡ self.old }

        ensures refusals { IfErr result (λ refusal. refusal ≡ NoMemory) }
    {
        let journal = Vec::with_capacity(self.alloc, 1)?;
        let base = self.scheduled.snapshot()?;
        Ok((base, journal))
    }

    /// The journal begins anew from a base, and what it was is handed out.
    fn begin(&mut self, base: Snapshot<M>, journal: Vec<EntryOf<M>>) -> Vec<EntryOf<M>>
        ensures cell { self.new.cell ≡ record self.old.cell { base = base; journal = journal.items } }
        ensures places { self.new.places ≡ vec_capacity journal }
        ensures entries { result.items ≡ self.old.cell.journal }
    {
        self.base = base;
        mem::replace(&mut self.journal, journal)
    }

    /// The machine as it is becomes the base, and the journal is empty.
    pub(crate) fn cut(&mut self) -> Result<(), Refusal>
        ensures cut { OnOk result (self.new.cell ≡ cut self.old.cell) }
        ensures room { HasRoom self.old → HasRoom self.new }

        ensures refusals { IfErr result (λ refusal. refusal ≡ NoMemory) }
        ensures unchanged { OnErr result (self.new.cell ≡ self.old.cell) }
    {
        let (base, journal) = self.fresh()?;
        self.begin(base, journal);
        Ok(())
    }

    /// The journal itself, which is cut.
    pub(crate) fn take_journal(
        &mut self,
        label: &str,
    ) -> Result<Journal<M::State, M::Content>, Refusal>
        ensures journal { IfOk result (λ journal. IsJournalOf self.old.cell label.now journal) }
        ensures cut { OnOk result (self.new.cell ≡ cut self.old.cell) }
        ensures room { HasRoom self.old → HasRoom self.new }

        ensures refusals { IfErr result (λ refusal. refusal ≡ NoMemory) }
        ensures unchanged { OnErr result (self.new.cell ≡ self.old.cell) }
    {
        let (id, from) = (self.scheduled.core().id(), self.base.latest);
        let label = String::from_str(self.alloc, label)?;
        let (snapshot, journal) = self.fresh()?;
        let entries = self.begin(snapshot, journal);
        Ok(Journal {
            id,
            label,
            from,
            entries: PlainList::from(entries),
        })
    }
}
