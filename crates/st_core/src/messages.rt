//! The messages of a machine: the first one is shown, and taken out.
ghost use Rattle.std.specs.Prelude.{◌≡◌};
ghost use Rattle.std.specs.Option.{option_copied};
ghost use Rattle.st_outbox.specs.Outbox.{first_message};
ghost use Rattle.st_answers.specs.declared.answer.Answer.TheVariants as answer;
ghost use Rattle.st_answers.specs.declared.command.Command.TheVariants as command;
ghost use Rattle.st_core.specs.Callbacks.{callbacks_of};
ghost use Rattle.st_core.specs.Run.{Does};

use crate::Core;
use st_events::{Message, Module};

impl<M: Module> Core<M> {
    /// The first message that the machine has sent and that was not taken out yet.
    ///
    /// Ours: docs/DECISIONS.md, Messages.
    pub fn first_message(&self) -> Option<&Message<M::Content>>
        ensures { option_copied result ≡ first_message self.now.machine.outbox.messages }
    {
        self.outgoing.first()
    }

    /// Takes out the first message that the machine has sent and that was not taken out yet, if there is one, also after
    /// the end. Whoever serves the machine delivers it: the machine knows nothing of it any more.
    ///
    /// It takes no memory, and is never refused.
    ///
    /// Manual: the introduction, on sending messages from a state machine; ours: docs/DECISIONS.md, Messages.
    pub fn take_out(&mut self) -> Option<Message<M::Content>>
        ensures { Does (callbacks_of M.Module M.State.eq) self.old command.TakeOut (answer.TakeOut result) self.new }
    {
        self.outgoing.take()
    }
}
