//! Messages: they are taken out of a machine, and delivered to it.
ghost use Rattle.std.specs.Prelude.{◌≡◌, IfErr};
ghost use Rattle.st_answers.specs.declared.command.Command.TheVariants as command;
ghost use Rattle.st_core.specs.Callbacks.{callbacks_of};
ghost use Rattle.st_scheduled.specs.Answered.{taken_out_as};
ghost use Rattle.st_cell.specs.Calls.{IsTold, TakesOut, Delivers};
ghost use Rattle.st_cell.specs.Cell.{HasRoom};

use crate::Source;
use crate::journaled::Journaled;
use st_core::{Answer, Command, Entry, Message, Module, Refusal, Refused};
use st_events::Token;
use st_scheduled::Posted;

impl<M: Module> Journaled<M> {
    /// The first message is taken out by a token, if there is one. One that gives none has no entry.
    pub(crate) fn take_out(
        &mut self,
        token: Token,
    ) -> Result<Option<Message<M::Content>>, Refused<Token>>
        ensures does { TakesOut (callbacks_of M.Module M.State.eq) self.old.cell token result self.new.cell }
        ensures room { HasRoom self.old → HasRoom self.new }

        ensures returned { IfErr result (λ refused. refused.value ≡ token) }
    {
        if !self.is_token(token) {
            return Err(Refused::new(Refusal::NotQueued, token));
        }
        match self.take_first() {
            Ok(message) => Ok(message),
            Err(refusal) => Err(Refused::new(refusal, token)),
        }
    }

    /// The first message is taken out, if there is one.
    fn take_first(&mut self) -> Result<Option<Message<M::Content>>, Refusal>
        ensures does { IsTold (callbacks_of M.Module M.State.eq) self.old.cell command.TakeOut (taken_out_as result) self.new.cell }
        ensures room { HasRoom self.old → HasRoom self.new }
    {
        if !self.scheduled.takes_take_out() {
            return self.scheduled.take_out();
        }
        let copy = match self.prepare_first() {
            Ok(copy) => copy,
            Err(_) => return Err(Refusal::NoMemory),
        };
        match self.scheduled.take_out() {
            Ok(message) => {
                self.write(Source::Caller, Command::TakeOut, Answer::TakeOut(copy));
                Ok(message)
            }
            Err(refusal) => Err(refusal),
        }
    }

    /// A message is delivered: it is posted as an info.
    pub(crate) fn deliver(
        &mut self,
        message: Message<M::Content>,
    ) -> Result<Posted, Refused<Message<M::Content>>>
        ensures does { Delivers (callbacks_of M.Module M.State.eq) self.old.cell message result self.new.cell }
        ensures room { HasRoom self.old → HasRoom self.new }

        ensures returned { IfErr result (λ refused. refused.value ≡ message) }
    {
        let Message {
            sender,
            number,
            target,
            content,
        } = message;
        match self.post_from(Source::Message(sender, number), Entry::Info, content) {
            Ok(posted) => Ok(posted),
            Err(refused) => {
                let message = Message {
                    sender,
                    number,
                    target,
                    content: refused.value,
                };
                Err(Refused::new(refused.refusal, message))
            }
        }
    }
}
