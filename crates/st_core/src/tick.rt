//! Time passes.
ghost use Rattle.std.specs.Prelude.{◌≡◌, ◌+◌, ◌<◌, ◌≤◌, OnErr};
ghost use Rattle.st_answers.specs.declared.answer.Answer.TheVariants as answer;
ghost use Rattle.st_answers.specs.declared.command.Command.TheVariants as command;
ghost use Rattle.st_core.specs.Callbacks.{callbacks_of};
ghost use Rattle.st_core.specs.Run.{Does};
ghost use Rattle.st_core.specs.Tick.{due_at};

use crate::Core;
use st_events::{MOMENT_LIMIT, Module, Refusal};
use st_steps::Steps;
use std::marker::Brand;
use std::sync::ledger::{Blank, Ledger};

impl<M: Module> Core<M> {
    /// Tells the machine the moment, in milliseconds, and answers how many time-outs expire: each that is
    /// due by then waits as an expiry behind all others. A moment before the latest one counts as the
    /// latest. It looks at the time-outs that expire, and at no more than one other: a step is a look.
    ///
    /// Refused with `Stopped` once the machine has ended, with `Moment` at 2^63 or later, and with
    /// `NoMemory` where memory is wanted, which it is only where a time-out expires. A refusal changes
    /// nothing, the latest moment included.
    ///
    /// Ours: docs/TRANSITIONS.md, Time-outs; the manual's time-outs come by themselves.
    pub fn tick<L: Ledger>(&mut self, now: u64, steps: &mut Steps<L>) -> Result<u64, Refusal>
        ensures does { Does (callbacks_of M.Module M.State.eq) self.old (command.Tick now) (answer.Tick result) self.new }
        ensures looks { steps.new ≤ steps.old + due_at self.old.machine now + 1 }

        ensures unchanged { OnErr result (self.new ≡ self.old) }
    {
        if let Some((reason, _)) = self.ended {
            return Err(Refusal::Stopped(reason));
        }
        if now >= MOMENT_LIMIT {
            return Err(Refusal::Moment);
        }
        let latest = self.latest.max(now);
        let count = self.agenda.expire(latest, steps)?;
        // Nothing fails from here on.
        self.latest = latest;
        Ok(count as u64)
    }

    /// Tells the machine the moment, in milliseconds, as `tick` does, for a caller that counts no looks.
    ///
    /// Ours: docs/TRANSITIONS.md, Time-outs; the manual's time-outs come by themselves.
    pub fn tick_to(&mut self, now: u64) -> Result<u64, Refusal>
        ensures does { Does (callbacks_of M.Module M.State.eq) self.old (command.Tick now) (answer.Tick result) self.new }

        ensures unchanged { OnErr result (self.new ≡ self.old) }
    {
        tick_in::<M, Brand>(self, now, Blank::new(1))
    }
}

/// A tick whose looks are counted in a ledger of its own.
fn tick_in<M: Module, L: Ledger>(core: &mut Core<M>, now: u64, blank: Blank) -> Result<u64, Refusal>
    requires name { blank.name ≡ L.name }
    requires parts { blank.parts ≡ L.parts }
    requires some { 0 < blank.parts }
    ensures does { Does (callbacks_of M.Module M.State.eq) core.old (command.Tick now) (answer.Tick result) core.new }

    ensures unchanged { OnErr result (core.new ≡ core.old) }
{
    core.tick(now, &mut Steps::<L>::new(blank))
}
