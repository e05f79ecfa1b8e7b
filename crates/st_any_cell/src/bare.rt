//! A machine whose journal is not kept.
ghost use Rattle.std.specs.Prelude.{◌≡◌, ◌<◌, ◌^◌, true, IfOk, IfErr, OnOk, OnErr, is_some, if◌then◌else◌};
ghost use Rattle.st_events.specs.declared.refusal.Refusal.TheVariants.{NoMemory};
ghost use Rattle.st_answers.specs.declared.command.Command.TheVariants as command;
ghost use Rattle.st_core.specs.Callbacks.{callbacks_of};
ghost use Rattle.st_core.specs.Lawful.{IsLawful};
ghost use Rattle.st_scheduled.specs.declared.step_answer.StepAnswer.{StepAnswer};
ghost use Rattle.st_scheduled.specs.Answered.{posted_as, served_as, ticked_as, replied_as, collected_as, stopped_as};
ghost use Rattle.st_scheduled.specs.ScheduledMachine.{is_token_of};
ghost use Rattle.st_scheduled.specs.declared.next.Next.TheVariants as next;
ghost use Rattle.st_cell.specs.Calls.{counted_at, Posts, IsServed, IsTold, Turns, TakesOut, Delivers, done_as, opened, look_of, IsJournalOf};
ghost use Rattle.st_cell.specs.Cell.{cell_at_first, IsOpen, count_for};
ghost use Rattle.st_any_cell.specs.AnyCell.{bare_cell, IsCutBehind};

use st_cell::{
    Collected, Core, Entry, Journal, Look, Message, Module, Next, PlainList, Posted, Reason,
    Refusal, Refused, Tag, Ticked, Token,
};
use st_core::a_machine_is_lawful;
use st_scheduled::{ScheduledMachine, Served, ServedOf};
use std::alloc::Global;

/// A machine, how many events each port has posted, and whether its last turn may have been waited for.
#[derive(Drop)]
pub(crate) struct Bare<M: Module> {
    alloc: Global,
    pub(crate) scheduled: ScheduledMachine<M>,
    pub(crate) ports: Vec<u64>,
    pub(crate) has_replied: bool,
}

/// Whether it was refused that a machine is served, or done.
fn done<M: Module>(served: &ServedOf<M>) -> Result<(), Refusal>
    ensures { result ≡ done_as {C = M.Content} (served_as served.now) }
{
    match served {
        Ok(Served::Turned(_report)) => Ok(()),
        Ok(Served::Sending | Served::Rested) => Ok(()),
        Err(refusal) => Err(*refusal),
    }
}

/// Whether a turn was made that replied, or at which the machine ended.
fn may_be_awaited<M: Module>(served: &ServedOf<M>, core: &Core<M>) -> bool {
    match served {
        Ok(Served::Turned(report)) => report.replied.len() > 0 || core.ended().is_some(),
        _ => false,
    }
}

impl<M: Module> Bare<M> {
    /// A machine with no port.
    pub(crate) fn new(alloc: Global, core: Core<M>) -> Bare<M>
        ensures begun { bare_cell result ≡ cell_at_first core }
        ensures lawful { IsLawful core.machine }
    {
        a_machine_is_lawful(&core);
        Bare {
            alloc,
            scheduled: ScheduledMachine::new(core),
            ports: Vec::new(alloc),
            has_replied: false,
        }
    }

    /// The machine alone.
    pub(crate) fn into_core(self) -> Core<M>
        ensures { result ≡ self.scheduled.core }
    {
        let Bare { scheduled, .. } = self;
        scheduled.into_core()
    }

    /// Opens the next port, and answers its number.
    pub(crate) fn port(&mut self) -> Result<u64, Refusal>
        ensures number { IfOk result (λ number. number ≡ (opened (bare_cell self.old)).0) }
        ensures opened { OnOk result (bare_cell self.new ≡ (opened (bare_cell self.old)).1) }

        ensures refusals { IfErr result (λ refusal. refusal ≡ NoMemory) }
        ensures unchanged { OnErr result (bare_cell self.new ≡ bare_cell self.old) }
    {
        if self.ports.push(0).is_err() {
            return Err(Refusal::NoMemory);
        }
        Ok(self.ports.len() as u64)
    }

    /// How many events a port has posted.
    pub(crate) fn count_for(&self, port: u64) -> u64
        requires { IsOpen port (bare_cell self.now) }
        ensures { result ≡ count_for port (bare_cell self.now) }
    {
        self.ports[port as usize - 1]
    }

    /// A port posts an event.
    pub(crate) fn post(
        &mut self,
        port: u64,
        entry: Entry,
        content: M::Content,
    ) -> Result<Posted, Refused<M::Content>>
        requires open { IsOpen port (bare_cell self.old) }
        requires bounded { count_for port (bare_cell self.old) < 2 ^ 63 }
        ensures does { IsCutBehind (Posts (callbacks_of M.Module M.State.eq) (bare_cell self.old) port entry content (posted_as result)) (bare_cell self.new) }

        ensures returned { IfErr result (λ refused. refused.value ≡ content) }
    {
        match self.scheduled.post(entry, content) {
            Ok(posted) => {
                self.count_post(port);
                Ok(posted)
            }
            Err(refused) => Err(refused),
        }
    }

    /// A port has posted one event more.
    fn count_post(&mut self, port: u64)
        requires open { IsOpen port (bare_cell self.old) }
        requires bounded { count_for port (bare_cell self.old) < 2 ^ 63 }
        ensures counted { bare_cell self.new ≡ record (bare_cell self.old) { ports = counted_at port true (bare_cell self.old).ports } }
    {
        let place = port as usize - 1;
        self.ports[place] += 1;
    }

    /// The machine is told the moment, in milliseconds.
    pub(crate) fn tick(&mut self, now: u64) -> Result<Ticked, Refusal>
        ensures does { IsCutBehind (IsTold (callbacks_of M.Module M.State.eq) (bare_cell self.old) (command.Tick now) (ticked_as result)) (bare_cell self.new) }
    {
        self.scheduled.tick(now)
    }

    /// A request is answered.
    pub(crate) fn reply(
        &mut self,
        tag: Tag,
        content: M::Content,
    ) -> Result<bool, Refused<M::Content>>
        ensures does { IsCutBehind (IsTold (callbacks_of M.Module M.State.eq) (bare_cell self.old) (command.Reply tag content) (replied_as result)) (bare_cell self.new) }

        ensures returned { IfErr result (λ refused. refused.value ≡ content) }
    {
        self.scheduled.reply(tag, content)
    }

    /// What is kept for a request is handed out.
    pub(crate) fn collect(&mut self, tag: Tag) -> Result<Collected<M::Content>, Refusal>
        ensures does { IsCutBehind (IsTold (callbacks_of M.Module M.State.eq) (bare_cell self.old) (command.Collect tag) (collected_as result)) (bare_cell self.new) }
    {
        self.scheduled.collect(tag)
    }

    /// The machine is stopped.
    pub(crate) fn stop(&mut self, reason: Reason) -> Result<u32, Refusal>
        ensures does { IsCutBehind (IsTold (callbacks_of M.Module M.State.eq) (bare_cell self.old) (command.Stop reason) (stopped_as result)) (bare_cell self.new) }
    {
        self.scheduled.stop(reason)
    }

    /// The machine is served by a token, at a moment, in milliseconds.
    pub(crate) fn turn(&mut self, token: Token, now: u64) -> Result<Next, Refused<Token>>
        ensures does { IsCutBehind (Turns (callbacks_of M.Module M.State.eq) (bare_cell self.old) token now result) (bare_cell self.new) }
    {
        if !self.scheduled.is_token(token) {
            return Err(Refused::new(Refusal::NotQueued, token));
        }
        match self.serve(now) {
            Ok(()) => Ok(self.next(token)),
            Err(refusal) => Err(Refused::new(refusal, token)),
        }
    }

    /// The machine is served, at a moment, in milliseconds.
    fn serve(&mut self, now: u64) -> Result<(), Refusal>
        ensures served { (answer : StepAnswer M.State M.Content) × IsCutBehind (IsServed (callbacks_of M.Module M.State.eq) (bare_cell self.old) now answer) (bare_cell self.new) × (result ≡ done_as answer) }
    {
        let served = self.scheduled.serve(now);
        self.has_replied = may_be_awaited::<M>(&served, self.scheduled.core());
        done::<M>(&served)
    }

    /// What becomes of the token by which the machine was served.
    fn next(&self, token: Token) -> Next
        ensures { result ≡ (if is_some self.now.scheduled.token then next.Again token else next.Rest) }
    {
        if self.scheduled.has_token() {
            Next::Again(token)
        } else {
            Next::Rest
        }
    }

    /// The first message is taken out by a token, if there is one.
    pub(crate) fn take_out(
        &mut self,
        token: Token,
    ) -> Result<Option<Message<M::Content>>, Refused<Token>>
        ensures does { IsCutBehind (TakesOut (callbacks_of M.Module M.State.eq) (bare_cell self.old) token result) (bare_cell self.new) }

        ensures returned { IfErr result (λ refused. refused.value ≡ token) }
    {
        if !self.scheduled.is_token(token) {
            return Err(Refused::new(Refusal::NotQueued, token));
        }
        match self.scheduled.take_out() {
            Ok(message) => Ok(message),
            Err(refusal) => Err(Refused::new(refusal, token)),
        }
    }

    /// A message is delivered: it is posted as an info.
    pub(crate) fn deliver(
        &mut self,
        message: Message<M::Content>,
    ) -> Result<Posted, Refused<Message<M::Content>>>
        ensures does { IsCutBehind (Delivers (callbacks_of M.Module M.State.eq) (bare_cell self.old) message result) (bare_cell self.new) }

        ensures returned { IfErr result (λ refused. refused.value ≡ message) }
    {
        let Message {
            sender,
            number,
            target,
            content,
        } = message;
        match self.scheduled.post(Entry::Info, content) {
            Ok(posted) => Ok(posted),
            Err(refused) => {
                let message = Message {
                    sender,
                    number,
                    target,
                    content: refused.value,
                };
                Err(Refused::new(refused.refusal, message))
            }
        }
    }

    /// What is seen of the machine by a port.
    pub(crate) fn look(&self, port: u64) -> Result<Look<M::State, M::Data>, Refusal>
        requires { IsOpen port (bare_cell self.now) }
        ensures look { IfOk result (λ look. look ≡ look_of port (bare_cell self.now)) }

        ensures refusals { IfErr result (λ refusal. refusal ≡ NoMemory) }
    {
        let core = self.scheduled.core();
        let held = core.module().copy_data(self.alloc, core.data())?;
        Ok(Look {
            state: core.state(),
            held,
            waiting: core.waiting(),
            entries: self.scheduled.count(),
            mine: self.count_for(port),
            numbers: PlainList::from(Vec::new(self.alloc)),
            ended: core.ended(),
        })
    }

    /// The journal, which is empty, with a label.
    pub(crate) fn journal(&self, label: &str) -> Result<Journal<M::State, M::Content>, Refusal>
        ensures journal { IfOk result (λ journal. IsJournalOf (bare_cell self.now) label.now journal) }

        ensures refusals { IfErr result (λ refusal. refusal ≡ NoMemory) }
    {
        let core = self.scheduled.core();
        let label = String::from_str(self.alloc, label)?;
        Ok(Journal {
            id: core.id(),
            label,
            from: core.latest(),
            entries: PlainList::from(Vec::new(self.alloc)),
        })
    }
}
