//! A machine with its journal, and places for more entries.
ghost use Rattle.std.specs.Prelude.{◌≡◌, ◌+◌, ◌<◌, ◌≤◌, ◌∷◌, [], ◌++◌, length, IfOk, IfErr, OnOk};
ghost use Rattle.st_events.specs.declared.refusal.Refusal.TheVariants.{NoMemory};
ghost use Rattle.st_core.specs.Lawful.{IsLawful};
ghost use Rattle.st_requests.specs.Requests.{collected_of, held_for};
ghost use Rattle.st_outbox.specs.Outbox.{first_message};
ghost use Rattle.st_cell.specs.Cell.{cell_at_first, HasRoom};

use crate::copying::copied_message;
use crate::{JournalEntry, Source};
use st_core::{
    Answer, Collected, Command, Core, Held, Message, Module, Refusal, Refused, Snapshot, Tag,
    a_machine_is_lawful,
};
use st_scheduled::ScheduledMachine;
use std::alloc::{AllocError, Global};
use std::marker::Model;

/// An entry of the journal of a machine of this module.
pub(crate) type EntryOf<M> = JournalEntry<<M as Module>::State, <M as Module>::Content>;

/// What a machine of this module answers to a command.
pub(crate) type AnswerOf<M> = Answer<<M as Module>::State, <M as Module>::Content>;

/// A machine, what it was when its journal began, the journal, and how many events each port has posted.
#[derive(Drop)]
pub(crate) struct Journaled<M: Module> {
    pub(crate) alloc: Global,
    pub(crate) scheduled: ScheduledMachine<M>,
    pub(crate) base: Snapshot<M>,
    pub(crate) journal: Vec<EntryOf<M>>,
    pub(crate) ports: Vec<u64>,
}

impl<M: Module> Model for Journaled<M> {
    ghost use Rattle.std.specs.Prelude.{vec_capacity};
    ghost use Rattle.st_cell.specs.Cell.{JournaledState};

    ghost Value = { JournaledState M M.State M.Data M.Content };

    ghost view = { λ journaled. record {
      cell = record {
        scheduled = journaled.scheduled;
        base = journaled.base;
        journal = journaled.journal.items;
        ports = journaled.ports.items;
      };
      places = vec_capacity journaled.journal;
    } };
}

impl<M: Module> Journaled<M> {
    /// A machine with an empty journal. Where there is no memory, the machine comes back.
    pub(crate) fn new(alloc: Global, core: Core<M>) -> Result<Journaled<M>, Refused<Core<M>>>
        ensures begun { IfOk result (λ journaled. journaled.cell ≡ cell_at_first core) }
        ensures room { IfOk result (λ journaled. HasRoom journaled) }
        ensures lawful { IsLawful core.machine }

        ensures refusals { IfErr result (λ refused. refused.refusal ≡ NoMemory) }
        ensures returned { IfErr result (λ refused. refused.value ≡ core) }
    {
        a_machine_is_lawful(&core);
        let mut core = core;
        let Ok(journal) = Vec::with_capacity(alloc, 1) else {
            return Err(Refused::new(Refusal::NoMemory, core));
        };
        let base = match core.snapshot() {
            Ok(base) => base,
            Err(refusal) => return Err(Refused::new(refusal, core)),
        };
        Ok(Journaled {
            alloc,
            scheduled: ScheduledMachine::new(core),
            base,
            journal,
            ports: Vec::new(alloc),
        })
    }

    /// The machine alone.
    pub(crate) fn into_core(self) -> Core<M>
        ensures { result ≡ self.cell.scheduled.core }
    {
        let Journaled { scheduled, .. } = self;
        scheduled.into_core()
    }

    /// Gets places for two entries: one for the command that is told next, and one for that of a stop.
    pub(crate) fn make_room(&mut self) -> Result<(), AllocError>
        ensures same { self.new.cell ≡ self.old.cell }
        ensures room { OnOk result (length self.old.cell.journal + 1 < self.new.places) }
        ensures more { self.old.places ≤ self.new.places }
    {
        self.journal.reserve(2)
    }

    /// A copy of a content.
    fn copied(&self, content: &M::Content) -> Result<M::Content, AllocError>
        ensures { IfOk result (λ copy. copy ≡ content.now) }
    {
        self.scheduled
            .core()
            .module()
            .copy_content(self.alloc, content)
    }

    /// Gets places for two entries, and copies the content that goes into the first.
    pub(crate) fn prepare(&mut self, content: &M::Content) -> Result<M::Content, AllocError>
        ensures copy { IfOk result (λ copy. copy ≡ content.now) }
        ensures same { self.new.cell ≡ self.old.cell }
        ensures room { OnOk result (length self.old.cell.journal + 1 < self.new.places) }
        ensures more { self.old.places ≤ self.new.places }
    {
        self.make_room()?;
        self.copied(content)
    }

    /// A copy of what would be collected for a tag.
    fn kept_for(&self, tag: Tag) -> Result<Collected<M::Content>, AllocError>
        ensures { IfOk result (λ shown. shown ≡ collected_of (held_for self.now.cell.scheduled.core.machine.requests tag)) }
    {
        let core = self.scheduled.core();
        if let Some(content) = core.peek(tag) {
            return Ok(Collected::Reply(self.copied(content)?));
        }
        match core.held(tag) {
            Some(Held::Stopped(reason)) => Ok(Collected::Stopped(reason)),
            Some(_) => Ok(Collected::Waiting),
            None => Ok(Collected::Gone),
        }
    }

    /// Gets places for two entries, and copies what would be collected for a tag.
    pub(crate) fn prepare_kept(&mut self, tag: Tag) -> Result<Collected<M::Content>, AllocError>
        ensures shown { IfOk result (λ shown. shown ≡ collected_of (held_for self.old.cell.scheduled.core.machine.requests tag)) }
        ensures same { self.new.cell ≡ self.old.cell }
        ensures room { OnOk result (length self.old.cell.journal + 1 < self.new.places) }
        ensures more { self.old.places ≤ self.new.places }
    {
        self.make_room()?;
        self.kept_for(tag)
    }

    /// A copy of the message that would be taken out, if there is one.
    fn first_copied(&self) -> Result<Option<Message<M::Content>>, AllocError>
        ensures { IfOk result (λ copy. copy ≡ first_message self.now.cell.scheduled.core.machine.outbox.messages) }
    {
        let core = self.scheduled.core();
        match core.first_message() {
            Some(message) => Ok(Some(copied_message(message, self.alloc, core.module())?)),
            None => Ok(None),
        }
    }

    /// Gets places for two entries, and copies the message that would be taken out.
    pub(crate) fn prepare_first(&mut self) -> Result<Option<Message<M::Content>>, AllocError>
        ensures copy { IfOk result (λ copy. copy ≡ first_message self.old.cell.scheduled.core.machine.outbox.messages) }
        ensures same { self.new.cell ≡ self.old.cell }
        ensures room { OnOk result (length self.old.cell.journal + 1 < self.new.places) }
        ensures more { self.old.places ≤ self.new.places }
    {
        self.make_room()?;
        self.first_copied()
    }

    /// Writes the entry of the last command that was counted. There is a place for it.
    pub(crate) fn write(
        &mut self,
        source: Source,
        command: Command<M::Content>,
        answer: AnswerOf<M>,
    )
        requires { length self.old.cell.journal < self.old.places }
        ensures written { self.new.cell ≡ record self.old.cell {
          journal = self.old.cell.journal ++ record { number = self.old.cell.scheduled.count; source = source; command = command; answer = answer } ∷ [];
        } }
        ensures places { self.new.places ≡ self.old.places }
    {
        let number = self.scheduled.count();
        JournalEntry::write(&mut self.journal, number, source, command, answer);
    }
}
