//! A machine's cell: the machine with its journal.
ghost use Rattle.std.specs.Prelude.{◌≡◌, ◌↔◌, true, length, IfOk, IfErr, OnOk, OnErr};
ghost use Rattle.st_events.specs.declared.refusal.Refusal.TheVariants.{NoMemory};
ghost use Rattle.st_answers.specs.declared.command.Command.TheVariants as command;
ghost use Rattle.st_core.specs.Callbacks.{callbacks_of};
ghost use Rattle.st_scheduled.specs.Answered.{posted_as, ticked_as, replied_as, collected_as, stopped_as};
ghost use Rattle.st_scheduled.specs.ScheduledMachine.{id_of, token_of};
ghost use Rattle.st_cell.specs.Calls.{Posts, IsTold, Turns, TakesOut, Delivers, opened, look_of, cut, IsJournalOf, is_removable};
ghost use Rattle.st_cell.specs.Cell.{cell_at_first, IsOpen, count_for, HasPosted, HasPostedNothing};

use crate::journaled::{EntryOf, Journaled};
use crate::{Journal, Look, Next};
use st_core::{Collected, Core, Entry, Message, Module, Reason, Refusal, Refused, Snapshot, Tag};
use st_events::Token;
use st_scheduled::{Posted, Ticked};
use std::alloc::Global;
use std::marker::Model;

/// A machine with its journal: each command that it took, in order, with what it answered.
///
/// At every moment the machine is the replay of its journal from its base, which is what it was when the journal began:
/// the journal's commands lead from the base to it, with the answers that the journal keeps. The journal can be cut:
/// then the machine as it is becomes the base.
///
/// A machine that has work, an event or a message to be taken out, has one outstanding token, the licence to be served: a
/// post, a delivery or a tick that gives it work answers one, and `turn` and `take_out` take it. Events are posted through
/// ports, which are counted apart; messages of other machines are delivered.
///
/// Ours: docs/DECISIONS.md, Journals.
#[derive(Drop)]
pub struct Cell<M: Module> {
    pub(crate) journaled: Journaled<M>,
}

impl<M: Module> Model for Cell<M> {
    ghost use Rattle.st_core.specs.Callbacks.{callbacks_of};
    ghost use Rattle.st_cell.specs.Cell.{CellState, IsCell};

    ghost Value = { CellState M M.State M.Data M.Content };

    ghost view = { λ cell. cell.journaled.cell };

    ghost invariant = { λ cell. IsCell (callbacks_of M.Module M.State.eq) cell.journaled };
}

impl<M: Module> Cell<M> {
    /// A cell with this machine as its base, an empty journal, and no port. If the machine has work, it is issued a
    /// token, whose wake number is 0.
    ///
    /// Refused with `NoMemory` where memory is wanted and there is none; then the machine comes back, as it was.
    ///
    /// Ours: docs/DECISIONS.md, Journals, Tokens.
    pub fn new(alloc: Global, core: Core<M>) -> Result<(Cell<M>, Option<Token>), Refused<Core<M>>>
        ensures begun { IfOk result (λ begun. begun.0 ≡ cell_at_first core) }
        ensures token { IfOk result (λ begun. begun.1 ≡ token_of (cell_at_first core).scheduled) }

        ensures refusals { IfErr result (λ refused. refused.refusal ≡ NoMemory) }
        ensures returned { IfErr result (λ refused. refused.value ≡ core) }
    {
        match Journaled::new(alloc, core) {
            Ok(journaled) => {
                let token = journaled.scheduled.token();
                Ok((Cell { journaled }, token))
            }
            Err(refused) => Err(refused),
        }
    }

    /// Opens the next port, and answers its number: they are numbered from 1 on. It has posted nothing.
    ///
    /// Refused with `NoMemory` where memory is wanted and there is none; then none is opened. It has no entry.
    ///
    /// Ours: docs/DECISIONS.md, Ports.
    pub fn port(&mut self) -> Result<u64, Refusal>
        ensures number { IfOk result (λ number. number ≡ (opened self.old).0) }
        ensures opened { OnOk result (self.new ≡ (opened self.old).1) }

        ensures refusals { IfErr result (λ refusal. refusal ≡ NoMemory) }
        ensures unchanged { OnErr result (self.new ≡ self.old) }
    {
        self.journaled.port()
    }

    /// How many ports are open: their numbers are 1 to this one.
    ///
    /// Ours: docs/DECISIONS.md, Ports.
    pub fn ports(&self) -> usize
        ensures { result ≡ length self.now.ports }
    {
        self.journaled.ports.len()
    }

    /// Says whether a port is open.
    ///
    /// Ours: docs/DECISIONS.md, Ports.
    pub fn is_open(&self, port: u64) -> bool
        ensures { result ≡ true ↔ IsOpen port self.now }
    {
        port > 0 && port <= self.journaled.ports.len() as u64
    }

    /// How many events a port that is open has posted.
    ///
    /// Ours: docs/DECISIONS.md, Ports.
    pub fn count_for(&self, port: u64) -> u64
        requires { IsOpen port self.now }
        ensures { result ≡ count_for port self.now }
    {
        self.journaled.count_for(port)
    }

    /// Hands the machine an event from outside, through a port that is open, as `Core::post` does, and answers the
    /// event's number. Where the machine has work then and no token is outstanding, it is issued one, which the caller
    /// gets.
    ///
    /// Refused with `Stopped` once the machine has ended, with `Exhausted` where no number is left for the event or for
    /// the entry, and with `NoMemory` where memory is wanted. A refusal changes nothing and gives the content back.
    ///
    /// Manual: `call/2`, `send_request/2`, `cast/2`, `event_type()`.
    pub fn post(
        &mut self,
        port: u64,
        entry: Entry,
        content: M::Content,
    ) -> Result<Posted, Refused<M::Content>>
        requires { IsOpen port self.old }
        ensures does { Posts (callbacks_of M.Module M.State.eq) self.old port entry content (posted_as result) self.new }
        ensures posted { IfOk result (λ posted. HasPosted port (record { number = posted.number; entry = entry; content = content }) self.old self.new) }
        ensures ports { length self.new.ports ≡ length self.old.ports }

        ensures unchanged { OnErr result (self.new ≡ self.old) }
        ensures returned { IfErr result (λ refused. refused.value ≡ content) }
    {
        self.journaled.post(port, entry, content)
    }

    /// Serves the machine by a token: one turn at a moment, in milliseconds, if there is an event for it. Without one, as
    /// after the end, it looks at no moment and writes no entry. `Again` has the token where the machine has work after it,
    /// an event or a message to be taken out; else the token is retired.
    ///
    /// Refused with `NotQueued` where the token is not the machine's outstanding one, with `Moment` at 2^63 and later,
    /// with `Exhausted` where too few numbers are left for what the turn asks for or for the entry, and with `NoMemory`
    /// where memory is wanted. A refusal changes nothing and gives the token back.
    ///
    /// Manual: `Module:handle_event/4`; ours: docs/DECISIONS.md, Tokens.
    pub fn turn(&mut self, token: Token, now: u64) -> Result<Next, Refused<Token>>
        ensures does { Turns (callbacks_of M.Module M.State.eq) self.old token now result self.new }
        ensures posts { HasPostedNothing self.old self.new }
        ensures ports { length self.new.ports ≡ length self.old.ports }

        ensures unchanged { OnErr result (self.new ≡ self.old) }
        ensures returned { IfErr result (λ refused. refused.value ≡ token) }
    {
        self.journaled.turn(token, now)
    }

    /// Tells the machine the moment, in milliseconds, as `Core::tick` does. Where the machine has work then and no token
    /// is outstanding, it is issued one, which the caller gets.
    ///
    /// Refused with `Stopped` once the machine has ended, with `Moment` at 2^63 and later, with `Exhausted` where no
    /// number is left for the entry, and with `NoMemory` where memory is wanted. A refusal changes nothing.
    ///
    /// Ours: docs/DECISIONS.md, Time-outs come by ticks.
    pub fn tick(&mut self, now: u64) -> Result<Ticked, Refusal>
        ensures does { IsTold (callbacks_of M.Module M.State.eq) self.old (command.Tick now) (ticked_as result) self.new }
        ensures posts { HasPostedNothing self.old self.new }
        ensures ports { length self.new.ports ≡ length self.old.ports }

        ensures unchanged { OnErr result (self.new ≡ self.old) }
    {
        self.journaled.tick(now)
    }

    /// Hands out what is kept for a request, once, as `Core::collect` does. One that hands nothing out, for the request
    /// waits or nothing is kept, has no entry and is never refused.
    ///
    /// Refused with `Exhausted` where no number is left for the entry, and with `NoMemory` where memory is wanted: then
    /// what is kept stays.
    ///
    /// Manual: `receive_response/1`; ours: docs/DECISIONS.md, Requests.
    pub fn collect(&mut self, tag: Tag) -> Result<Collected<M::Content>, Refusal>
        ensures does { IsTold (callbacks_of M.Module M.State.eq) self.old (command.Collect tag) (collected_as result) self.new }
        ensures posts { HasPostedNothing self.old self.new }
        ensures ports { length self.new.ports ≡ length self.old.ports }

        ensures unchanged { OnErr result (self.new ≡ self.old) }
    {
        self.journaled.collect(tag)
    }

    /// Answers a request, as `Core::reply` does, and says whether it was open.
    ///
    /// Refused with `Exhausted` where no number is left for the entry, and with `NoMemory` where memory is wanted. A
    /// refusal changes nothing and gives the content back.
    ///
    /// Manual: `reply/2`; ours: docs/DECISIONS.md, Requests.
    pub fn reply(&mut self, tag: Tag, content: M::Content) -> Result<bool, Refused<M::Content>>
        ensures does { IsTold (callbacks_of M.Module M.State.eq) self.old (command.Reply tag content) (replied_as result) self.new }
        ensures posts { HasPostedNothing self.old self.new }
        ensures ports { length self.new.ports ≡ length self.old.ports }

        ensures unchanged { OnErr result (self.new ≡ self.old) }
        ensures returned { IfErr result (λ refused. refused.value ≡ content) }
    {
        self.journaled.reply(tag, content)
    }

    /// Takes out the first message that the machine has sent and that was not taken out yet, if there is one, by the
    /// machine's outstanding token, also after the machine has ended. The token stays. One that finds no message answers
    /// `None` and has no entry.
    ///
    /// Refused with `NotQueued` where the token is not the machine's outstanding one, with `Exhausted` where there is a
    /// message and no number is left for the entry, and with `NoMemory` where memory is wanted: then the message stays. A
    /// refusal changes nothing and gives the token back.
    ///
    /// Ours: docs/DECISIONS.md, Messages.
    pub fn take_out(&mut self, token: Token) -> Result<Option<Message<M::Content>>, Refused<Token>>
        ensures does { TakesOut (callbacks_of M.Module M.State.eq) self.old token result self.new }
        ensures posts { HasPostedNothing self.old self.new }
        ensures ports { length self.new.ports ≡ length self.old.ports }

        ensures unchanged { OnErr result (self.new ≡ self.old) }
        ensures returned { IfErr result (λ refused. refused.value ≡ token) }
    {
        self.journaled.take_out(token)
    }

    /// Delivers a message that was sent to the machine: its content is posted as an info, as `Core::post` does it, and the
    /// answer is the event's number. No port counts it, and its entry has the message's sender and number. Where the machine
    /// has work then and no token is outstanding, it is issued one, which the caller gets.
    ///
    /// Refused with `Stopped` once the machine has ended, with `Exhausted` where no number is left for the event or for
    /// the entry, and with `NoMemory` where memory is wanted. A refusal changes nothing and gives the message back.
    ///
    /// Manual: the introduction, on sending messages from a state machine; `event_type()`, `info`; ours: docs/DECISIONS.md,
    /// Messages.
    pub fn deliver(
        &mut self,
        message: Message<M::Content>,
    ) -> Result<Posted, Refused<Message<M::Content>>>
        requires { message.target ≡ id_of self.old.scheduled }
        ensures does { Delivers (callbacks_of M.Module M.State.eq) self.old message result self.new }
        ensures posts { HasPostedNothing self.old self.new }
        ensures ports { length self.new.ports ≡ length self.old.ports }

        ensures unchanged { OnErr result (self.new ≡ self.old) }
        ensures returned { IfErr result (λ refused. refused.value ≡ message) }
    {
        self.journaled.deliver(message)
    }

    /// Ends the machine at once, as `Core::stop` does, and answers its last word. Its outstanding token stays until its
    /// next turn.
    ///
    /// Refused with `Stopped` once the machine has ended, and with `Exhausted` where no number is left for the entry. It
    /// takes no memory: the entry's place is reserved.
    ///
    /// Manual: `stop/3`; ours: docs/DECISIONS.md, A stop from outside.
    pub fn stop(&mut self, reason: Reason) -> Result<u32, Refusal>
        ensures does { IsTold (callbacks_of M.Module M.State.eq) self.old (command.Stop reason) (stopped_as result) self.new }
        ensures posts { HasPostedNothing self.old self.new }
        ensures ports { length self.new.ports ≡ length self.old.ports }

        ensures unchanged { OnErr result (self.new ≡ self.old) }
    {
        self.journaled.stop(reason)
    }

    /// What is seen of the machine through a port that is open: its state, a copy of its data, how many events wait, the
    /// last entry's number, how many events the port has posted, the numbers of those in the journal, and the end. It has
    /// no entry.
    ///
    /// Refused with `NoMemory` where memory is wanted and there is none. It walks the journal.
    ///
    /// Ours: docs/DECISIONS.md, Looks; manual: `sys:get_state/1`.
    pub fn look(&self, port: u64) -> Result<Look<M::State, M::Data>, Refusal>
        requires { IsOpen port self.now }
        ensures look { IfOk result (λ look. look ≡ look_of port self.now) }

        ensures refusals { IfErr result (λ refusal. refusal ≡ NoMemory) }
    {
        self.journaled.look(port)
    }

    /// Says whether the machine can be removed: it has ended, and no message of it is left to be taken out.
    ///
    /// Ours: docs/DECISIONS.md, Journals, Messages.
    pub fn removable(&self) -> bool
        ensures { result ≡ is_removable self.now }
    {
        let core = self.journaled.scheduled.core();
        core.ended().is_some() && !core.has_message()
    }

    /// The machine, to be read.
    ///
    /// Ours: docs/DECISIONS.md, Journals.
    pub fn core(&self) -> &Core<M>
        ensures { result.now ≡ self.now.scheduled.core }
    {
        self.journaled.scheduled.core()
    }

    /// The machine alone: its journal is let go.
    ///
    /// Ours: docs/DECISIONS.md, Journals.
    pub fn into_core(self) -> Core<M>
        ensures { result ≡ self.scheduled.core }
    {
        let Cell { journaled } = self;
        journaled.into_core()
    }

    /// How many commands the machine took: the last entry's number, also where that entry is cut away.
    ///
    /// Ours: docs/DECISIONS.md, Journals.
    pub fn count(&self) -> u64
        ensures { result ≡ self.now.scheduled.count }
    {
        self.journaled.scheduled.count()
    }

    /// The machine's outstanding token.
    ///
    /// Ours: docs/DECISIONS.md, Tokens.
    pub fn token(&self) -> Option<Token>
        ensures { result ≡ token_of self.now.scheduled }
    {
        self.journaled.scheduled.token()
    }

    /// The base: what the machine was when its journal began.
    ///
    /// Ours: docs/DECISIONS.md, Journals.
    pub fn base(&self) -> &Snapshot<M>
        ensures { result.now ≡ self.now.base }
    {
        &self.journaled.base
    }

    /// The journal itself, in order: the entries since the base.
    ///
    /// Ours: docs/DECISIONS.md, Journals.
    pub fn entries(&self) -> &[EntryOf<M>]
        ensures { result.now ≡ self.now.journal }
    {
        self.journaled.journal.as_slice()
    }

    /// A copy of the journal, with a label, as the machine's name. It has no entry.
    ///
    /// Refused with `NoMemory` where memory is wanted and there is none. It walks the journal.
    ///
    /// Ours: docs/DECISIONS.md, Journals.
    pub fn journal(&self, label: &str) -> Result<Journal<M::State, M::Content>, Refusal>
        ensures journal { IfOk result (λ journal. IsJournalOf self.now label.now journal) }

        ensures refusals { IfErr result (λ refusal. refusal ≡ NoMemory) }
    {
        self.journaled.journal(label)
    }

    /// Cuts the journal: the machine as it is becomes the base, and the journal is empty. The numbers of entries go on,
    /// and so do the counts of the ports and the outstanding token. It has no entry.
    ///
    /// Refused with `NoMemory` where memory is wanted and there is none; then nothing is cut.
    ///
    /// Ours: docs/DECISIONS.md, Journals.
    pub fn cut(&mut self) -> Result<(), Refusal>
        ensures cut { OnOk result (self.new ≡ cut self.old) }

        ensures refusals { IfErr result (λ refusal. refusal ≡ NoMemory) }
        ensures unchanged { OnErr result (self.new ≡ self.old) }
    {
        self.journaled.cut()
    }

    /// Hands the journal out, with a label, and cuts it: it answers what `journal` answers, without a copy, and leaves what `cut`
    /// leaves. So no entry is lost between the two.
    ///
    /// Refused with `NoMemory` where memory is wanted and there is none; then the journal stays.
    ///
    /// Ours: docs/DECISIONS.md, Journals.
    pub fn take_journal(&mut self, label: &str) -> Result<Journal<M::State, M::Content>, Refusal>
        ensures journal { IfOk result (λ journal. IsJournalOf self.old label.now journal) }
        ensures cut { OnOk result (self.new ≡ cut self.old) }

        ensures refusals { IfErr result (λ refusal. refusal ≡ NoMemory) }
        ensures unchanged { OnErr result (self.new ≡ self.old) }
    {
        self.journaled.take_journal(label)
    }
}
