//! A machine's cell that keeps its journal, or keeps none.
ghost use Rattle.std.specs.Prelude.{◌≡◌, ◌↔◌, ℕ, ◌<◌, ◌^◌, [], length, true, false, IfOk, IfErr, OnOk, OnErr};
ghost use Rattle.st_events.specs.declared.refusal.Refusal.TheVariants.{NoMemory};
ghost use Rattle.st_answers.specs.declared.command.Command.TheVariants as command;
ghost use Rattle.st_core.specs.Callbacks.{callbacks_of};
ghost use Rattle.st_scheduled.specs.Answered.{posted_as, ticked_as, replied_as, collected_as, stopped_as};
ghost use Rattle.st_scheduled.specs.ScheduledMachine.{id_of, token_of};
ghost use Rattle.st_cell.specs.Calls.{Posts, IsTold, Turns, TakesOut, Delivers, opened, cut};
ghost use Rattle.st_cell.specs.Cell.{cell_at_first, IsJournaled, IsOpen, count_for};
ghost use Rattle.st_journal.specs.Journal.{posts_of};
ghost use Rattle.st_any_cell.specs.AnyCell.{any_at_first, Leaves};

use crate::bare::Bare;
use crate::form::Form;
use st_cell::{
    Cell, Collected, Core, Entry, Message, Module, Next, Posted, Reason, Refusal, Refused, Tag,
    Ticked, Token, a_cell_is_journaled,
};
use std::alloc::Global;
use std::marker::Model;

/// A machine's cell that keeps its journal, or keeps none.
///
/// To a contract one that keeps none is a cell which is cut behind each of its calls: what a call answers and makes of the
/// machine is what it is of a `Cell`, the base is the machine as it is, and the journal is empty. It writes nothing down and
/// copies nothing.
///
/// Ours: docs/DECISIONS.md, Machines without a journal.
#[derive(Drop)]
pub struct AnyCell<M: Module> {
    pub(crate) form: Form<M>,
}

impl<M: Module> Model for AnyCell<M> {
    ghost use Rattle.st_core.specs.Callbacks.{callbacks_of};
    ghost use Rattle.st_any_cell.specs.AnyCell.{AnyCellState, IsAnyCell, state_of};

    ghost Value = { AnyCellState M M.State M.Data M.Content };

    ghost view = { λ any. state_of any.form };

    ghost invariant = { λ any. IsAnyCell (callbacks_of M.Module M.State.eq) (state_of any.form) };
}

impl<M: Module> AnyCell<M> {
    /// A cell that keeps its journal, as `Cell::new` makes it. If the machine has work, it is issued a token, whose wake number
    /// is 0.
    ///
    /// Refused with `NoMemory` where memory is wanted and there is none; then the machine comes back, as it was.
    ///
    /// Ours: docs/DECISIONS.md, Journals, Tokens.
    pub fn journaled(
        alloc: Global,
        core: Core<M>,
    ) -> Result<(AnyCell<M>, Option<Token>), Refused<Core<M>>>
        ensures begun { IfOk result (λ begun. begun.0 ≡ any_at_first true core) }
        ensures token { IfOk result (λ begun. begun.1 ≡ token_of (cell_at_first core).scheduled) }

        ensures refusals { IfErr result (λ refused. refused.refusal ≡ NoMemory) }
        ensures returned { IfErr result (λ refused. refused.value ≡ core) }
    {
        let (cell, token) = Cell::new(alloc, core)?;
        a_cell_is_journaled(&cell);
        match Box::new(alloc, cell) {
            Ok(cell) => {
                let form = Form::Journaled(cell);
                Ok((AnyCell { form }, token))
            }
            Err(failed) => Err(Refused::new(Refusal::NoMemory, failed.value.into_core())),
        }
    }

    /// A cell that keeps no journal. If the machine has work, it is issued a token, whose wake number is 0. It takes no
    /// memory.
    ///
    /// Ours: docs/DECISIONS.md, Machines without a journal, Tokens.
    pub fn unjournaled(alloc: Global, core: Core<M>) -> (AnyCell<M>, Option<Token>)
        ensures begun { result.0 ≡ any_at_first false core }
        ensures token { result.1 ≡ token_of (cell_at_first core).scheduled }
    {
        let bare = Bare::new(alloc, core);
        let token = bare.scheduled.token();
        let form = Form::Unjournaled(bare);
        (AnyCell { form }, token)
    }

    /// Opens the next port, as `Cell::port` does.
    ///
    /// Refused with `NoMemory` where memory is wanted and there is none; then none is opened.
    ///
    /// Ours: docs/DECISIONS.md, Ports.
    pub fn port(&mut self) -> Result<u64, Refusal>
        ensures number { IfOk result (λ number. number ≡ (opened self.old.cell).0) }
        ensures opened { OnOk result (self.new ≡ record self.old { cell = (opened self.old.cell).1 }) }

        ensures refusals { IfErr result (λ refusal. refusal ≡ NoMemory) }
        ensures unchanged { OnErr result (self.new ≡ self.old) }
    {
        match &mut self.form {
            Form::Journaled(cell) => cell.port(),
            Form::Unjournaled(bare) => bare.port(),
        }
    }

    /// Says whether a port is open.
    ///
    /// Ours: docs/DECISIONS.md, Ports.
    pub fn is_open(&self, port: u64) -> bool
        ensures { result ≡ true ↔ IsOpen port self.now.cell }
    {
        match &self.form {
            Form::Journaled(cell) => cell.is_open(port),
            Form::Unjournaled(bare) => port > 0 && port <= bare.ports.len() as u64,
        }
    }

    /// How many events a port that is open has posted.
    ///
    /// Ours: docs/DECISIONS.md, Ports.
    pub fn count_for(&self, port: u64) -> u64
        requires { IsOpen port self.now.cell }
        ensures { result ≡ count_for port self.now.cell }
    {
        match &self.form {
            Form::Journaled(cell) => cell.count_for(port),
            Form::Unjournaled(bare) => bare.count_for(port),
        }
    }

    /// Hands the machine an event from outside, through a port that is open, as `Cell::post` does.
    ///
    /// Refused as `Cell::post` is: with `Stopped`, `Exhausted` and `NoMemory`. A refusal changes nothing and gives the content
    /// back.
    ///
    /// Manual: `call/2`, `send_request/2`, `cast/2`, `event_type()`.
    pub fn post(
        &mut self,
        port: u64,
        entry: Entry,
        content: M::Content,
    ) -> Result<Posted, Refused<M::Content>>
        requires { IsOpen port self.old.cell }
        ensures does { Leaves self.old (Posts (callbacks_of M.Module M.State.eq) self.old.cell port entry content (posted_as result)) self.new }
        ensures ports { length self.new.cell.ports ≡ length self.old.cell.ports }

        ensures unchanged { OnErr result (self.new ≡ self.old) }
        ensures returned { IfErr result (λ refused. refused.value ≡ content) }
    {
        match &mut self.form {
            Form::Journaled(cell) => cell.post(port, entry, content),
            Form::Unjournaled(bare) => bare.post(port, entry, content),
        }
    }

    /// Serves the machine by a token, at a moment, in milliseconds, as `Cell::turn` does.
    ///
    /// Refused as `Cell::turn` is: with `NotQueued`, `Moment`, `Exhausted` and `NoMemory`. A refusal changes nothing and gives
    /// the token back.
    ///
    /// Manual: `Module:handle_event/4`; ours: docs/DECISIONS.md, Tokens.
    pub fn turn(&mut self, token: Token, now: u64) -> Result<Next, Refused<Token>>
        ensures does { Leaves self.old (Turns (callbacks_of M.Module M.State.eq) self.old.cell token now result) self.new }

        ensures unchanged { OnErr result (self.new ≡ self.old) }
        ensures returned { IfErr result (λ refused. refused.value ≡ token) }
    {
        match &mut self.form {
            Form::Journaled(cell) => cell.turn(token, now),
            Form::Unjournaled(bare) => bare.turn(token, now),
        }
    }

    /// Tells the machine the moment, in milliseconds, as `Cell::tick` does.
    ///
    /// Refused as `Cell::tick` is: with `Stopped`, `Moment`, `Exhausted` and `NoMemory`. A refusal changes nothing.
    ///
    /// Ours: docs/DECISIONS.md, Time-outs come by ticks.
    pub fn tick(&mut self, now: u64) -> Result<Ticked, Refusal>
        ensures does { Leaves self.old (IsTold (callbacks_of M.Module M.State.eq) self.old.cell (command.Tick now) (ticked_as result)) self.new }

        ensures unchanged { OnErr result (self.new ≡ self.old) }
    {
        match &mut self.form {
            Form::Journaled(cell) => cell.tick(now),
            Form::Unjournaled(bare) => bare.tick(now),
        }
    }

    /// Hands out what is kept for a request, once, as `Cell::collect` does.
    ///
    /// Refused as `Cell::collect` is: with `Exhausted` and `NoMemory`. Then what is kept stays.
    ///
    /// Manual: `receive_response/1`; ours: docs/DECISIONS.md, Requests.
    pub fn collect(&mut self, tag: Tag) -> Result<Collected<M::Content>, Refusal>
        ensures does { Leaves self.old (IsTold (callbacks_of M.Module M.State.eq) self.old.cell (command.Collect tag) (collected_as result)) self.new }

        ensures unchanged { OnErr result (self.new ≡ self.old) }
    {
        match &mut self.form {
            Form::Journaled(cell) => cell.collect(tag),
            Form::Unjournaled(bare) => bare.collect(tag),
        }
    }

    /// Answers a request, as `Cell::reply` does, and says whether it was open.
    ///
    /// Refused as `Cell::reply` is: with `Exhausted` and `NoMemory`. A refusal changes nothing and gives the content back.
    ///
    /// Manual: `reply/2`; ours: docs/DECISIONS.md, Requests.
    pub fn reply(&mut self, tag: Tag, content: M::Content) -> Result<bool, Refused<M::Content>>
        ensures does { Leaves self.old (IsTold (callbacks_of M.Module M.State.eq) self.old.cell (command.Reply tag content) (replied_as result)) self.new }

        ensures unchanged { OnErr result (self.new ≡ self.old) }
        ensures returned { IfErr result (λ refused. refused.value ≡ content) }
    {
        match &mut self.form {
            Form::Journaled(cell) => cell.reply(tag, content),
            Form::Unjournaled(bare) => bare.reply(tag, content),
        }
    }

    /// Takes the machine's first message out by a token, as `Cell::take_out` does.
    ///
    /// Refused as `Cell::take_out` is: with `NotQueued`, `Exhausted` and `NoMemory`. A refusal changes nothing and gives the
    /// token back.
    ///
    /// Ours: docs/DECISIONS.md, Messages.
    pub fn take_out(&mut self, token: Token) -> Result<Option<Message<M::Content>>, Refused<Token>>
        ensures does { Leaves self.old (TakesOut (callbacks_of M.Module M.State.eq) self.old.cell token result) self.new }

        ensures unchanged { OnErr result (self.new ≡ self.old) }
        ensures returned { IfErr result (λ refused. refused.value ≡ token) }
    {
        match &mut self.form {
            Form::Journaled(cell) => cell.take_out(token),
            Form::Unjournaled(bare) => bare.take_out(token),
        }
    }

    /// Delivers a message that was sent to the machine, as `Cell::deliver` does.
    ///
    /// Refused as `Cell::deliver` is: with `Stopped`, `Exhausted` and `NoMemory`. A refusal changes nothing and gives the
    /// message back.
    ///
    /// Manual: `event_type()`, `info`; ours: docs/DECISIONS.md, Messages.
    pub fn deliver(
        &mut self,
        message: Message<M::Content>,
    ) -> Result<Posted, Refused<Message<M::Content>>>
        requires { message.target ≡ id_of self.old.cell.scheduled }
        ensures does { Leaves self.old (Delivers (callbacks_of M.Module M.State.eq) self.old.cell message result) self.new }

        ensures unchanged { OnErr result (self.new ≡ self.old) }
        ensures returned { IfErr result (λ refused. refused.value ≡ message) }
    {
        match &mut self.form {
            Form::Journaled(cell) => cell.deliver(message),
            Form::Unjournaled(bare) => bare.deliver(message),
        }
    }

    /// Ends the machine at once, as `Cell::stop` does.
    ///
    /// Refused as `Cell::stop` is: with `Stopped` and `Exhausted`. It takes no memory.
    ///
    /// Manual: `stop/3`; ours: docs/DECISIONS.md, A stop from outside.
    pub fn stop(&mut self, reason: Reason) -> Result<u32, Refusal>
        ensures does { Leaves self.old (IsTold (callbacks_of M.Module M.State.eq) self.old.cell (command.Stop reason) (stopped_as result)) self.new }

        ensures unchanged { OnErr result (self.new ≡ self.old) }
    {
        match &mut self.form {
            Form::Journaled(cell) => cell.stop(reason),
            Form::Unjournaled(bare) => bare.stop(reason),
        }
    }

    /// Cuts the journal, as `Cell::cut` does. Where none is kept there is nothing to cut.
    ///
    /// Refused with `NoMemory` where memory is wanted and there is none; then nothing is cut.
    ///
    /// Ours: docs/DECISIONS.md, Journals.
    pub fn cut(&mut self) -> Result<(), Refusal>
        ensures cut { OnOk result (self.new ≡ record self.old { cell = cut self.old.cell }) }

        ensures refusals { IfErr result (λ refusal. refusal ≡ NoMemory) }
        ensures unchanged { OnErr result (self.new ≡ self.old) }
    {
        match &mut self.form {
            Form::Journaled(cell) => cell.cut(),
            Form::Unjournaled(_) => Ok(()),
        }
    }
}

/// A cell that keeps its journal or keeps none is what every cell is; each of its open ports posted fewer events than 2^63, and
/// its journal has no posts of a port that is not open. Calling it does nothing.
///
/// Ours: docs/TRANSITIONS.md, Journals.
pub fn any_cell_is_journaled<M: Module>(cell: &AnyCell<M>)
    ensures journaled { IsJournaled (callbacks_of M.Module M.State.eq) cell.now.cell }
    ensures limited { (port : ℕ) → IsOpen port cell.now.cell → count_for port cell.now.cell < 2 ^ 63 }
    ensures others { (port : ℕ) → length cell.now.cell.ports < port → posts_of port cell.now.cell.journal ≡ [] }
{
    let _ = &cell.form;
}
