//! The calls that a journal keeps: each gets its memory first, then tells the machine, then writes its entry.
ghost use Rattle.std.specs.Prelude.{◌≡◌, ◌<◌, ◌^◌, ◌||◌, true, false, is_some, IfErr, if◌then◌else◌};
ghost use Rattle.st_answers.specs.declared.command.Command.TheVariants as command;
ghost use Rattle.st_core.specs.Callbacks.{callbacks_of};
ghost use Rattle.st_scheduled.specs.declared.step_answer.StepAnswer.{StepAnswer};
ghost use Rattle.st_scheduled.specs.Answered.{posted_as, ticked_as, served_as, replied_as, collected_as, stopped_as, is_counted, wants_numbers};
ghost use Rattle.st_scheduled.specs.ScheduledMachine.{is_token_of};
ghost use Rattle.st_scheduled.specs.Serving.{served_on, Serves, Tells};
ghost use Rattle.st_scheduled.specs.declared.next.Next.TheVariants as next;
ghost use Rattle.st_cell.specs.Calls.{Posts, IsToldBy, IsTold, IsServed, Turns, done_as, counted_at};
ghost use Rattle.st_cell.specs.Cell.{IsOpen, count_for, HasRoom};

use crate::journaled::Journaled;
use crate::{Next, Source};
use st_core::{Answer, Collected, Command, Entry, Module, Reason, Refusal, Refused, Tag, Turned};
use st_events::Token;
use st_scheduled::{Posted, Served, ServedOf, Ticked};

/// Whether it was refused that a machine is served, or done.
fn done<M: Module>(served: ServedOf<M>) -> Result<(), Refusal>
    ensures { result ≡ done_as {C = M.Content} (served_as served) }
{
    match served {
        Ok(Served::Turned(_report)) => Ok(()),
        Ok(Served::Sending | Served::Rested) => Ok(()),
        Err(refusal) => Err(refusal),
    }
}

impl<M: Module> Journaled<M> {
    /// A port posts an event.
    pub(crate) fn post(
        &mut self,
        port: u64,
        entry: Entry,
        content: M::Content,
    ) -> Result<Posted, Refused<M::Content>>
        requires open { IsOpen port self.old.cell }
        requires bounded { count_for port self.old.cell < 2 ^ 63 }
        ensures does { Posts (callbacks_of M.Module M.State.eq) self.old.cell port entry content (posted_as result) self.new.cell }
        ensures room { HasRoom self.old → HasRoom self.new }

        ensures returned { IfErr result (λ refused. refused.value ≡ content) }
    {
        match self.post_from(Source::Port(port), entry, content) {
            Ok(posted) => {
                self.count_post(port);
                Ok(posted)
            }
            Err(refused) => Err(refused),
        }
    }

    /// An event is posted that came from there. No port counts it yet.
    pub(crate) fn post_from(
        &mut self,
        source: Source,
        entry: Entry,
        content: M::Content,
    ) -> Result<Posted, Refused<M::Content>>
        ensures does { IsToldBy (callbacks_of M.Module M.State.eq) self.old.cell source (command.Post entry content) (posted_as result) self.new.cell }
        ensures room { HasRoom self.old → HasRoom self.new }
        ensures ports { self.new.cell.ports ≡ self.old.cell.ports }

        ensures returned { IfErr result (λ refused. refused.value ≡ content) }
    {
        if !self.scheduled.takes_post() {
            return self.scheduled.post(entry, content);
        }
        let copy = match self.prepare(&content) {
            Ok(copy) => copy,
            Err(_) => return Err(Refused::new(Refusal::NoMemory, content)),
        };
        match self.scheduled.post(entry, content) {
            Ok(posted) => {
                let command = Command::Post(entry, copy);
                self.write(source, command, Answer::Post(Ok(posted.number)));
                Ok(posted)
            }
            Err(refused) => Err(refused),
        }
    }

    /// The machine is told the moment, in milliseconds.
    pub(crate) fn tick(&mut self, now: u64) -> Result<Ticked, Refusal>
        ensures does { IsTold (callbacks_of M.Module M.State.eq) self.old.cell (command.Tick now) (ticked_as result) self.new.cell }
        ensures room { HasRoom self.old → HasRoom self.new }
    {
        if !self.scheduled.takes_tick(now) {
            return self.scheduled.tick(now);
        }
        if self.make_room().is_err() {
            return Err(Refusal::NoMemory);
        }
        match self.tick_scheduled(now) {
            Ok(ticked) => {
                let answer = Answer::Tick(Ok(ticked.expired));
                self.write(Source::Caller, Command::Tick(now), answer);
                Ok(ticked)
            }
            Err(refusal) => Err(refusal),
        }
    }

    /// The machine itself is told the moment, in milliseconds, and nothing is written.
    fn tick_scheduled(&mut self, now: u64) -> Result<Ticked, Refusal>
        ensures told { Tells (callbacks_of M.Module M.State.eq) self.old.cell.scheduled (command.Tick now) (ticked_as result) self.new.cell.scheduled }
        ensures rest { self.new.cell ≡ record self.old.cell { scheduled = self.new.cell.scheduled } }
        ensures places { self.new.places ≡ self.old.places }
    {
        self.scheduled.tick(now)
    }

    /// A request is answered.
    pub(crate) fn reply(
        &mut self,
        tag: Tag,
        content: M::Content,
    ) -> Result<bool, Refused<M::Content>>
        ensures does { IsTold (callbacks_of M.Module M.State.eq) self.old.cell (command.Reply tag content) (replied_as result) self.new.cell }
        ensures room { HasRoom self.old → HasRoom self.new }

        ensures returned { IfErr result (λ refused. refused.value ≡ content) }
    {
        if !self.scheduled.takes_reply() {
            return self.scheduled.reply(tag, content);
        }
        let copy = match self.prepare(&content) {
            Ok(copy) => copy,
            Err(_) => return Err(Refused::new(Refusal::NoMemory, content)),
        };
        match self.scheduled.reply(tag, content) {
            Ok(taken) => {
                self.write(
                    Source::Caller,
                    Command::Reply(tag, copy),
                    Answer::Reply(taken),
                );
                Ok(taken)
            }
            Err(refused) => Err(refused),
        }
    }

    /// What is kept for a request is handed out. One that hands nothing out has no entry.
    pub(crate) fn collect(&mut self, tag: Tag) -> Result<Collected<M::Content>, Refusal>
        ensures does { IsTold (callbacks_of M.Module M.State.eq) self.old.cell (command.Collect tag) (collected_as result) self.new.cell }
        ensures room { HasRoom self.old → HasRoom self.new }
    {
        if !self.scheduled.takes_collect(tag) {
            return self.scheduled.collect(tag);
        }
        let shown = match self.prepare_kept(tag) {
            Ok(shown) => shown,
            Err(_) => return Err(Refusal::NoMemory),
        };
        match self.scheduled.collect(tag) {
            Ok(collected) => {
                self.write(
                    Source::Caller,
                    Command::Collect(tag),
                    Answer::Collect(shown),
                );
                Ok(collected)
            }
            Err(refusal) => Err(refusal),
        }
    }

    /// The machine is stopped. The place for the entry is there.
    pub(crate) fn stop(&mut self, reason: Reason) -> Result<u32, Refusal>
        requires { HasRoom self.old }
        ensures does { IsTold (callbacks_of M.Module M.State.eq) self.old.cell (command.Stop reason) (stopped_as result) self.new.cell }
        ensures room { HasRoom self.new }
    {
        match self.scheduled.stop(reason) {
            Ok(word) => {
                self.write(
                    Source::Caller,
                    Command::Stop(reason),
                    Answer::Stop(Ok(word)),
                );
                Ok(word)
            }
            Err(refusal) => Err(refusal),
        }
    }

    /// The machine is served by a token, at a moment, in milliseconds.
    pub(crate) fn turn(&mut self, token: Token, now: u64) -> Result<Next, Refused<Token>>
        ensures does { Turns (callbacks_of M.Module M.State.eq) self.old.cell token now result self.new.cell }
        ensures room { HasRoom self.old → HasRoom self.new }
    {
        if !self.is_token(token) {
            return Err(Refused::new(Refusal::NotQueued, token));
        }
        match self.serve(now) {
            Ok(()) => Ok(self.next(token)),
            Err(refusal) => Err(Refused::new(refusal, token)),
        }
    }

    /// The machine is served, at a moment, in milliseconds.
    fn serve(&mut self, now: u64) -> Result<(), Refusal>
        ensures served { (answer : StepAnswer M.State M.Content) × IsServed (callbacks_of M.Module M.State.eq) self.old.cell now answer self.new.cell × (result ≡ done_as answer) }
        ensures room { HasRoom self.old → HasRoom self.new }
    {
        if !self.takes_turn(now) {
            return self.serve_without_entry(now);
        }
        if self.make_room().is_err() {
            return Err(Refusal::NoMemory);
        }
        match self.serve_scheduled(now) {
            Ok(Served::Turned(report)) => {
                let answer = Answer::Turn(Ok(Turned::Reported(report)));
                self.write(Source::Caller, Command::Turn(now), answer);
                Ok(())
            }
            Ok(Served::Sending | Served::Rested) => Ok(()),
            Err(refusal) => Err(refusal),
        }
    }

    /// The machine is served, at a moment, in milliseconds, where there will be no turn.
    fn serve_without_entry(&mut self, now: u64) -> Result<(), Refusal>
        requires { is_counted (served_on (callbacks_of M.Module M.State.eq) self.old.cell.scheduled now).0 ≡ false }
        ensures served { (answer : StepAnswer M.State M.Content) × IsServed (callbacks_of M.Module M.State.eq) self.old.cell now answer self.new.cell × (result ≡ done_as answer) }
        ensures room { HasRoom self.old → HasRoom self.new }
    {
        let served = self.serve_scheduled(now);
        done::<M>(served)
    }

    /// The machine itself is served, at a moment, in milliseconds, and nothing is written.
    fn serve_scheduled(&mut self, now: u64) -> ServedOf<M>
        ensures served { Serves (callbacks_of M.Module M.State.eq) self.old.cell.scheduled now (served_as result) self.new.cell.scheduled }
        ensures rest { self.new.cell ≡ record self.old.cell { scheduled = self.new.cell.scheduled } }
        ensures places { self.new.places ≡ self.old.places }
    {
        self.scheduled.serve(now)
    }

    /// Says whether there would be a turn at a moment, but for want of memory or of numbers.
    fn takes_turn(&self, now: u64) -> bool
        ensures turn { result ≡ true → is_counted (served_on (callbacks_of M.Module M.State.eq) self.now.cell.scheduled now).0 || wants_numbers (served_on (callbacks_of M.Module M.State.eq) self.now.cell.scheduled now).0 ≡ true }
        ensures none { result ≡ false → is_counted (served_on (callbacks_of M.Module M.State.eq) self.now.cell.scheduled now).0 ≡ false }
    {
        self.scheduled.takes_turn(now)
    }

    /// Says whether a token is the machine's outstanding one.
    pub(crate) fn is_token(&self, token: Token) -> bool
        ensures { result ≡ is_token_of token self.now.cell.scheduled }
    {
        self.scheduled.is_token(token)
    }

    /// What becomes of the token by which the machine was served.
    fn next(&self, token: Token) -> Next
        ensures { result ≡ (if is_some self.now.cell.scheduled.token then next.Again token else next.Rest) }
    {
        self.scheduled.next(token)
    }

    /// A port has posted one event more.
    fn count_post(&mut self, port: u64)
        requires open { IsOpen port self.old.cell }
        requires bounded { count_for port self.old.cell < 2 ^ 63 }
        ensures counted { self.new.cell ≡ record self.old.cell { ports = counted_at port true self.old.cell.ports } }
        ensures places { self.new.places ≡ self.old.places }
    {
        let place = port as usize - 1;
        self.ports[place] += 1;
    }
}
