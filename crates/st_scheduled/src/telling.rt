//! A machine that workers serve is told commands, and served.
ghost use Rattle.std.specs.Prelude.{◌≡◌, ℕ, true, false, ◌||◌, Ok, IfErr};
ghost use Rattle.st_events.specs.declared.tag.Tag.{Tag};
ghost use Rattle.st_answers.specs.declared.command.Command.TheVariants as command;
ghost use Rattle.st_answers.specs.declared.entry.Entry.{Entry};
ghost use Rattle.st_core.specs.Callbacks.{callbacks_of};
ghost use Rattle.st_core.specs.Run.{step_on};
ghost use Rattle.st_scheduled.specs.Answered.{posted_as, ticked_as, served_as, replied_as, collected_as, stopped_as, taken_out_as, is_counted, wants_numbers};
ghost use Rattle.st_scheduled.specs.ScheduledMachine.{id_of};
ghost use Rattle.st_scheduled.specs.Serving.{content_of, needs_count, told_on, served_idle, served_on, Tells, Serves};

use crate::{AnswerOf, Posted, ScheduledMachine, Served, StepAnswer, Ticked};
use st_core::{Collected, Command, Entry, Held, Turned};
use st_events::{MOMENT_LIMIT, Message, Module, NUMBER_LIMIT, Reason, Refusal, Refused, Tag};

/// The content of a command, if it has one.
///
/// Ours: docs/DECISIONS.md, The pool's steps.
pub fn content_of<C: Drop>(command: Command<C>) -> Option<C>
    ensures { result ≡ content_of command }
{
    match command {
        Command::Post(_, content) | Command::Reply(_, content) => Some(content),
        Command::Tick(_)
        | Command::Turn(_)
        | Command::Collect(_)
        | Command::Stop(_)
        | Command::TakeOut => None,
    }
}

/// What a machine that was served answers, or why it was not.
pub type ServedOf<M> = Result<Served<<M as Module>::State>, Refusal>;

impl<M: Module> ScheduledMachine<M> {
    /// Says whether a post would take a number of the count, or be refused for want of one.
    fn post_needs_count(&self) -> bool
        ensures { (entry : Entry) (content : M.Content) → result ≡ needs_count (step_on (callbacks_of M.Module M.State.eq) self.now.core (command.Post entry content)).0 }
    {
        self.core.ended().is_none()
    }

    /// Says whether a tick would take a number of the count, or be refused for want of one.
    fn tick_needs_count(&self, now: u64) -> bool
        ensures { result ≡ needs_count (step_on (callbacks_of M.Module M.State.eq) self.now.core (command.Tick now)).0 }
    {
        self.core.ended().is_none() && now < MOMENT_LIMIT
    }

    /// Says whether a turn would take a number of the count, or be refused for want of one.
    fn turn_needs_count(&self, now: u64) -> bool
        ensures { result ≡ needs_count (step_on (callbacks_of M.Module M.State.eq) self.now.core (command.Turn now)).0 }
    {
        self.core.has_event() && now < MOMENT_LIMIT
    }

    /// Says whether a collect would take a number of the count, or be refused for want of one.
    fn collect_needs_count(&self, tag: Tag) -> bool
        ensures { result ≡ needs_count (step_on (callbacks_of M.Module M.State.eq) self.now.core (command.Collect tag)).0 }
    {
        matches!(self.core.held(tag), Some(Held::Reply | Held::Stopped(_)))
    }

    /// Says whether a stop would take a number of the count, or be refused for want of one.
    fn stop_needs_count(&self) -> bool
        ensures { (reason : ℕ) → result ≡ needs_count (step_on (callbacks_of M.Module M.State.eq) self.now.core (command.Stop reason)).0 }
    {
        self.core.ended().is_none()
    }

    /// Says whether a post would be taken, but for want of memory.
    ///
    /// Ours: docs/DECISIONS.md, The journal's memory.
    pub fn takes_post(&self) -> bool
        ensures { (entry : Entry) (content : M.Content) → result ≡ is_counted (told_on (callbacks_of M.Module M.State.eq) self.now (command.Post entry content)).0 }
    {
        self.core.ended().is_none() && self.core.next_number() < NUMBER_LIMIT && !self.is_full()
    }

    /// Says whether a tick at a moment would be taken, but for want of memory.
    ///
    /// Ours: docs/DECISIONS.md, The journal's memory.
    pub fn takes_tick(&self, now: u64) -> bool
        ensures { result ≡ is_counted (told_on (callbacks_of M.Module M.State.eq) self.now (command.Tick now)).0 }
    {
        self.tick_needs_count(now) && !self.is_full()
    }

    /// Says whether there would be a turn at a moment, but for want of memory or of numbers.
    ///
    /// Ours: docs/DECISIONS.md, The journal's memory.
    pub fn takes_turn(&self, now: u64) -> bool
        ensures turn { result ≡ true → is_counted (served_on (callbacks_of M.Module M.State.eq) self.now now).0 || wants_numbers (served_on (callbacks_of M.Module M.State.eq) self.now now).0 ≡ true }
        ensures none { result ≡ false → is_counted (served_on (callbacks_of M.Module M.State.eq) self.now now).0 ≡ false }
    {
        self.turn_needs_count(now) && !self.is_full()
    }

    /// Says whether a reply would be taken as a command, whether or not its request is open.
    ///
    /// Ours: docs/DECISIONS.md, The journal's memory.
    pub fn takes_reply(&self) -> bool
        ensures { (tag : Tag) (content : M.Content) → result ≡ is_counted (told_on (callbacks_of M.Module M.State.eq) self.now (command.Reply tag content)).0 }
    {
        !self.is_full()
    }

    /// Says whether a collect would hand something out, but for want of memory.
    ///
    /// Ours: docs/DECISIONS.md, The journal's memory.
    pub fn takes_collect(&self, tag: Tag) -> bool
        ensures { result ≡ is_counted (told_on (callbacks_of M.Module M.State.eq) self.now (command.Collect tag)).0 }
    {
        self.collect_needs_count(tag) && !self.is_full()
    }

    /// Hands the machine an event from outside, as `Core::post` does. Where it has work then and no token is
    /// outstanding, it is issued one, which the caller gets.
    ///
    /// Refused as `Core::post` is, and with `Exhausted` where no further command can be counted; then nothing changes,
    /// and the content comes back.
    ///
    /// Manual: `call/2`, `cast/2`; ours: docs/DECISIONS.md, Tokens.
    pub fn post(&mut self, entry: Entry, content: M::Content) -> Result<Posted, Refused<M::Content>>
        ensures told { Tells (callbacks_of M.Module M.State.eq) self.old (command.Post entry content) (posted_as result) self.new }

        ensures returned { IfErr result (λ refused. refused.value ≡ content) }
    {
        if self.is_full() && self.post_needs_count() {
            return Err(Refused::new(Refusal::Exhausted, content));
        }
        match self.core.post(entry, content) {
            Ok(number) => {
                self.count += 1;
                let wake = self.wake();
                Ok(Posted { number, wake })
            }
            Err(refused) => Err(refused),
        }
    }

    /// Tells the machine the moment, in milliseconds, as `Core::tick` does. Where it has work then and no token is
    /// outstanding, it is issued one, which the caller gets.
    ///
    /// Refused as `Core::tick` is, and with `Exhausted` where no further command can be counted; then nothing changes.
    ///
    /// Ours: docs/DECISIONS.md, Time-outs come by ticks, Tokens.
    pub fn tick(&mut self, now: u64) -> Result<Ticked, Refusal>
        ensures told { Tells (callbacks_of M.Module M.State.eq) self.old (command.Tick now) (ticked_as result) self.new }
    {
        if self.is_full() && self.tick_needs_count(now) {
            return Err(Refusal::Exhausted);
        }
        match self.core.tick_to(now) {
            Ok(expired) => {
                self.count += 1;
                let wake = self.wake();
                Ok(Ticked { expired, wake })
            }
            Err(refusal) => Err(refusal),
        }
    }

    /// Makes a turn at a moment, in milliseconds, as `Core::turn` does. Where the machine has no work after it, its token
    /// is retired.
    fn turn(&mut self, now: u64) -> ServedOf<M>
        ensures told { Tells (callbacks_of M.Module M.State.eq) self.old (command.Turn now) (served_as result) self.new }
    {
        if self.is_full() && self.turn_needs_count(now) {
            return Err(Refusal::Exhausted);
        }
        match self.core.turn(now) {
            Ok(Turned::Reported(report)) => {
                self.count += 1;
                if !self.has_work() {
                    self.token = None;
                }
                Ok(Served::Turned(report))
            }
            Ok(Turned::Idle) => Ok(self.serve_idle()),
            Err(refusal) => Err(refusal),
        }
    }

    /// The machine has no event for a turn: its token stays as long as there is a message to be taken out, and else is
    /// retired.
    fn serve_idle(&mut self) -> Served<M::State>
        ensures answer { served_as (Ok result) ≡ (served_idle self.old).0 }
        ensures left { self.new ≡ (served_idle self.old).1 }
    {
        if self.core.has_message() {
            return Served::Sending;
        }
        self.token = None;
        Served::Rested
    }

    /// Serves the machine: one turn at a moment, in milliseconds, if there is an event for it. Without one it looks at no
    /// moment: `Sending` says that there is a message to be taken out, and the token stays; else the token is retired, and
    /// the answer is `Rested`.
    ///
    /// Refused as `Core::turn` is, and with `Exhausted` where no further command can be counted; then nothing changes.
    ///
    /// Manual: `Module:handle_event/4`; ours: docs/DECISIONS.md, Tokens.
    pub fn serve(&mut self, now: u64) -> ServedOf<M>
        ensures served { Serves (callbacks_of M.Module M.State.eq) self.old now (served_as result) self.new }
        ensures same_id { id_of self.new ≡ id_of self.old }
    {
        if !self.core.has_event() {
            return Ok(self.serve_idle());
        }
        self.turn(now)
    }

    /// Answers a request, as `Core::reply` does, and says whether it was open.
    ///
    /// Refused with `Exhausted` where no further command can be counted; then nothing changes, and the content comes
    /// back.
    ///
    /// Manual: `reply/2`; ours: docs/DECISIONS.md, Requests.
    pub fn reply(&mut self, tag: Tag, content: M::Content) -> Result<bool, Refused<M::Content>>
        ensures told { Tells (callbacks_of M.Module M.State.eq) self.old (command.Reply tag content) (replied_as result) self.new }

        ensures returned { IfErr result (λ refused. refused.value ≡ content) }
    {
        if self.is_full() {
            return Err(Refused::new(Refusal::Exhausted, content));
        }
        let taken = self.core.reply(tag, content);
        self.count += 1;
        Ok(taken)
    }

    /// Hands out what is kept for a request, once, as `Core::collect` does. One that hands nothing out is not counted.
    ///
    /// Refused with `Exhausted` where no further command can be counted; then nothing changes.
    ///
    /// Manual: `receive_response/1`; ours: docs/DECISIONS.md, Requests.
    pub fn collect(&mut self, tag: Tag) -> Result<Collected<M::Content>, Refusal>
        ensures told { Tells (callbacks_of M.Module M.State.eq) self.old (command.Collect tag) (collected_as result) self.new }
    {
        let hands_out = self.collect_needs_count(tag);
        if self.is_full() && hands_out {
            return Err(Refusal::Exhausted);
        }
        let collected = self.core.collect(tag);
        if hands_out {
            self.count += 1;
        }
        Ok(collected)
    }

    /// Ends the machine at once, as `Core::stop` does. Its outstanding token stays until it is served next.
    ///
    /// Refused as `Core::stop` is, and with `Exhausted` where no further command can be counted; then nothing changes.
    /// It takes no memory.
    ///
    /// Manual: `stop/3`; ours: docs/DECISIONS.md, A stop from outside.
    pub fn stop(&mut self, reason: Reason) -> Result<u32, Refusal>
        ensures told { Tells (callbacks_of M.Module M.State.eq) self.old (command.Stop reason) (stopped_as result) self.new }
    {
        if self.is_full() && self.stop_needs_count() {
            return Err(Refusal::Exhausted);
        }
        match self.core.stop(reason) {
            Ok(word) => {
                self.count += 1;
                Ok(word)
            }
            Err(refusal) => Err(refusal),
        }
    }

    /// Says whether a take-out would give a message.
    ///
    /// Ours: docs/DECISIONS.md, The journal's memory.
    pub fn takes_take_out(&self) -> bool
        ensures { result ≡ is_counted (told_on (callbacks_of M.Module M.State.eq) self.now command.TakeOut).0 }
    {
        self.core.has_message() && !self.is_full()
    }

    /// Takes out the first message that the machine has sent and that was not taken out yet, as `Core::take_out` does, if
    /// there is one. Its token stays. One that gives none is not counted.
    ///
    /// Refused with `Exhausted` where there is a message and no further command can be counted; then nothing changes.
    /// It takes no memory.
    ///
    /// Ours: docs/DECISIONS.md, Messages.
    pub fn take_out(&mut self) -> Result<Option<Message<M::Content>>, Refusal>
        ensures told { Tells (callbacks_of M.Module M.State.eq) self.old command.TakeOut (taken_out_as result) self.new }
    {
        let has_message = self.core.has_message();
        if self.is_full() && has_message {
            return Err(Refusal::Exhausted);
        }
        let message = self.core.take_out();
        if has_message {
            self.count += 1;
        }
        Ok(message)
    }

    /// Tells the machine a command.
    ///
    /// Refused as the command's own call is; then nothing changes, and the command's content comes back.
    ///
    /// Ours: docs/DECISIONS.md, The pool's steps.
    pub fn tell(&mut self, command: Command<M::Content>) -> AnswerOf<M>
        ensures told { Tells (callbacks_of M.Module M.State.eq) self.old command result self.new }
        ensures same_id { id_of self.new ≡ id_of self.old }
    {
        match command {
            Command::Post(entry, content) => StepAnswer::posted(self.post(entry, content)),
            Command::Tick(now) => StepAnswer::ticked(self.tick(now)),
            Command::Turn(now) => StepAnswer::served(self.turn(now)),
            Command::Reply(tag, content) => StepAnswer::replied(self.reply(tag, content)),
            Command::Collect(tag) => StepAnswer::collected(self.collect(tag)),
            Command::Stop(reason) => StepAnswer::stopped(self.stop(reason)),
            Command::TakeOut => StepAnswer::taken_out(self.take_out()),
        }
    }
}
