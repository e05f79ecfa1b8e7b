//! What is read of a cell that keeps its journal, or keeps none.
ghost use Rattle.std.specs.Prelude.{◌≡◌, length, IfOk, IfErr, OnOk, OnErr};
ghost use Rattle.st_events.specs.declared.refusal.Refusal.TheVariants.{NoMemory};
ghost use Rattle.st_cell.specs.Calls.{cut, look_of, is_removable, IsJournalOf};
ghost use Rattle.st_cell.specs.Cell.{IsOpen};
ghost use Rattle.st_scheduled.specs.ScheduledMachine.{token_of};

use crate::any_cell::AnyCell;
use crate::form::Form;
use st_cell::{Answer, Cell, Core, Journal, Look, Module, Refusal, Token, Turned};

/// Whether the last entry is of a turn that replied, or at which the machine ended.
fn has_written_reply<M: Module>(cell: &Cell<M>) -> bool {
    let Some(entry) = cell.entries().last() else {
        return false;
    };
    match &entry.answer {
        Answer::Turn(Ok(Turned::Reported(report))) => {
            report.replied.len() > 0 || cell.core().ended().is_some()
        }
        _ => false,
    }
}

impl<M: Module> AnyCell<M> {
    /// The machine, to be read.
    ///
    /// Ours: docs/DECISIONS.md, Journals.
    pub fn core(&self) -> &Core<M>
        ensures { result.now ≡ self.now.cell.scheduled.core }
    {
        match &self.form {
            Form::Journaled(cell) => cell.core(),
            Form::Unjournaled(bare) => bare.scheduled.core(),
        }
    }

    /// The machine alone: its journal is let go.
    ///
    /// Ours: docs/DECISIONS.md, Journals.
    pub fn into_core(self) -> Core<M>
        ensures { result ≡ self.cell.scheduled.core }
    {
        match self.form {
            Form::Journaled(cell) => Box::into_inner(cell).into_core(),
            Form::Unjournaled(bare) => bare.into_core(),
        }
    }

    /// The machine's outstanding token.
    ///
    /// Ours: docs/DECISIONS.md, Tokens.
    pub fn token(&self) -> Option<Token>
        ensures { result ≡ token_of self.now.cell.scheduled }
    {
        match &self.form {
            Form::Journaled(cell) => cell.token(),
            Form::Unjournaled(bare) => bare.scheduled.token(),
        }
    }

    /// Says whether the machine can be removed: it has ended, and no message of it is left to be taken out.
    ///
    /// Ours: docs/DECISIONS.md, Journals, Messages.
    pub fn removable(&self) -> bool
        ensures { result ≡ is_removable self.now.cell }
    {
        let core = self.core();
        core.ended().is_some() && !core.has_message()
    }

    /// Says whether who waits for a reply, or for the end, may find one behind the last turn. No contract says when it is so:
    /// who asks wakes those who wait.
    ///
    /// Ours: docs/DECISIONS.md, Requests.
    pub fn has_replied(&self) -> bool {
        match &self.form {
            Form::Journaled(cell) => has_written_reply(&**cell),
            Form::Unjournaled(bare) => bare.has_replied,
        }
    }

    /// How many entries the journal has.
    ///
    /// Ours: docs/DECISIONS.md, Journals.
    pub fn entries(&self) -> usize
        ensures { result ≡ length self.now.cell.journal }
    {
        match &self.form {
            Form::Journaled(cell) => cell.entries().len(),
            Form::Unjournaled(_) => 0,
        }
    }

    /// What is seen of the machine through a port that is open, as `Cell::look` shows it.
    ///
    /// Refused with `NoMemory` where memory is wanted and there is none. It walks the journal.
    ///
    /// Ours: docs/DECISIONS.md, Looks; manual: `sys:get_state/1`.
    pub fn look(&self, port: u64) -> Result<Look<M::State, M::Data>, Refusal>
        requires { IsOpen port self.now.cell }
        ensures look { IfOk result (λ look. look ≡ look_of port self.now.cell) }

        ensures refusals { IfErr result (λ refusal. refusal ≡ NoMemory) }
    {
        match &self.form {
            Form::Journaled(cell) => cell.look(port),
            Form::Unjournaled(bare) => bare.look(port),
        }
    }

    /// A copy of the journal, with a label, as `Cell::journal` makes it. Where none is kept it has no entry.
    ///
    /// Refused with `NoMemory` where memory is wanted and there is none. It walks the journal.
    ///
    /// Ours: docs/DECISIONS.md, Journals.
    pub fn journal(&self, label: &str) -> Result<Journal<M::State, M::Content>, Refusal>
        ensures journal { IfOk result (λ journal. IsJournalOf self.now.cell label.now journal) }

        ensures refusals { IfErr result (λ refusal. refusal ≡ NoMemory) }
    {
        match &self.form {
            Form::Journaled(cell) => cell.journal(label),
            Form::Unjournaled(bare) => bare.journal(label),
        }
    }

    /// Hands the journal out, with a label, and cuts it, as `Cell::take_journal` does. Where none is kept it has no entry.
    ///
    /// Refused with `NoMemory` where memory is wanted and there is none; then the journal stays.
    ///
    /// Ours: docs/DECISIONS.md, Journals.
    pub fn take_journal(&mut self, label: &str) -> Result<Journal<M::State, M::Content>, Refusal>
        ensures journal { IfOk result (λ journal. IsJournalOf self.old.cell label.now journal) }
        ensures cut { OnOk result (self.new ≡ record self.old { cell = cut self.old.cell }) }

        ensures refusals { IfErr result (λ refusal. refusal ≡ NoMemory) }
        ensures unchanged { OnErr result (self.new ≡ self.old) }
    {
        match &mut self.form {
            Form::Journaled(cell) => cell.take_journal(label),
            Form::Unjournaled(bare) => bare.journal(label),
        }
    }
}
