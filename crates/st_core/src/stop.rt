//! A machine is stopped from outside.
ghost use Rattle.std.specs.Prelude.{◌≡◌, OnErr};
ghost use Rattle.st_answers.specs.declared.answer.Answer.TheVariants as answer;
ghost use Rattle.st_answers.specs.declared.command.Command.TheVariants as command;
ghost use Rattle.st_core.specs.Callbacks.{callbacks_of};
ghost use Rattle.st_core.specs.Run.{Does};
ghost use Rattle.st_core.specs.Stop.{with_ended};

use crate::Core;
use st_agenda::Agenda;
use st_events::{Module, Reason, Refusal};

impl<M: Module> Core<M> {
    /// Ends the machine at once, before the events that wait: calls the module's `terminate`, keeps
    /// its word, and answers it. What waits is dropped, no time-out runs any more, and the requests that are
    /// open are closed for the reason. The state and the data stay, and so do the replies that are kept.
    ///
    /// Refused with `Stopped` once the machine has ended, which changes nothing. It takes no memory.
    ///
    /// Manual: `stop/3`, `Module:terminate/3`; ours: docs/DECISIONS.md, A stop from outside.
    pub fn stop(&mut self, reason: Reason) -> Result<u32, Refusal>
        ensures does { Does (callbacks_of M.Module M.State.eq) self.old (command.Stop reason) (answer.Stop result) self.new }

        ensures unchanged { OnErr result (self.new ≡ self.old) }
    {
        if let Some((reason, _)) = self.ended {
            return Err(Refusal::Stopped(reason));
        }
        let word = self.module.terminate(reason, self.state, &self.data);
        self.end(reason, word);
        Ok(word)
    }

    /// The machine has ended for a reason, with this last word: nothing waits or runs any more, and no request
    /// is open.
    pub(crate) fn end(&mut self, reason: Reason, word: u32)
        ensures ended { self.new.machine ≡ with_ended self.old.machine reason word }
        ensures unchanged_module { self.new.module_ ≡ self.old.module_ }
    {
        self.agenda = Agenda::new(self.alloc, self.agenda.next_number());
        self.requests.close(reason);
        self.ended = Some((reason, word));
    }
}
