//! A list of commands, one after another.
ghost use Rattle.std.specs.Prelude.{◌≡◌, true, None, IfOk, IfErr};
ghost use Rattle.st_events.specs.declared.refusal.Refusal.TheVariants.{NoMemory};
ghost use Rattle.st_core.specs.Accounting.{IsAccounted};
ghost use Rattle.st_core.specs.Callbacks.{callbacks_of};
ghost use Rattle.st_core.specs.Run.{is_refusal, Does, Runs};

use crate::{Answer, Command, Core};
use st_events::{Module, Refusal, Refused};

impl<M: Module> Core<M> {
    /// Does one command, and answers what its call answers.
    ///
    /// Ours: docs/DECISIONS.md, Runs.
    pub fn step(&mut self, command: Command<M::Content>) -> Answer<M::State, M::Content>
        ensures does { Does (callbacks_of M.Module M.State.eq) self.old command result self.new }

        ensures unchanged { is_refusal result ≡ true → self.new ≡ self.old }
    {
        match command {
            Command::Post(entry, content) => Answer::Post(self.post(entry, content)),
            Command::Tick(now) => Answer::Tick(self.tick_to(now)),
            Command::Turn(now) => Answer::Turn(self.turn(now)),
            Command::Reply(tag, content) => Answer::Reply(self.reply(tag, content)),
            Command::Collect(tag) => Answer::Collect(self.collect(tag)),
            Command::Stop(reason) => Answer::Stop(self.stop(reason)),
            Command::TakeOut => Answer::TakeOut(self.take_out()),
        }
    }

    /// Does commands in order, and answers their answers. A command that is refused stands among them
    /// with its refusal.
    ///
    /// As long as the machine has not ended, each event that waited before or was accepted since waits still or
    /// was finished once: none is lost, and none is finished twice.
    ///
    /// Refused with `NoMemory` where there is no memory for the answers: then nothing is done, and the
    /// commands come back.
    ///
    /// Ours: docs/DECISIONS.md, Runs.
    pub fn run(
        &mut self,
        commands: Vec<Command<M::Content>>,
    ) -> Result<Vec<Answer<M::State, M::Content>>, Refused<Vec<Command<M::Content>>>>
        ensures run { IfOk result (λ answers. Runs (callbacks_of M.Module M.State.eq) self.old commands.items answers.items self.new) }
        ensures accounted { IfOk result (λ answers. self.new.machine.ended ≡ None → IsAccounted self.old.machine answers.items self.new.machine) }

        ensures unchanged { IfErr result (λ refused. (refused.refusal ≡ NoMemory) × (refused.value ≡ commands) × (self.new ≡ self.old)) }
    {
        let mut answers = match Vec::with_capacity(self.alloc, commands.len()) {
            Ok(answers) => answers,
            Err(_) => return Err(Refused::new(Refusal::NoMemory, commands)),
        };
        for command in commands {
            let answer = self.step(command);
            answers.push_reserved(answer);
        }
        Ok(answers)
    }
}
