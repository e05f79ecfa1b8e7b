//! Who is told what a machine did.
ghost use Rattle.std.specs.Prelude.{⊤};
ghost use Rattle.st_events.specs.declared.message.Message.{Message};
ghost use Rattle.st_answers.specs.declared.report.Report.{Report};
ghost use Rattle.st_core.specs.MachineState.{Machine};

use st_core::{Core, Message, Module, Report};

/// Who is told what a machine did. This is how effects leave a machine.
///
/// It is called by the thread that serves the machine, and the machine waits for it. What it makes of what it is told has a
/// definition, its ghost member, which says nothing unless an observer says more.
///
/// Ours: docs/DECISIONS.md, Actors; manual: the introduction, on actions of a state machine.
pub trait Observer<M: Module> {
    // What comes of being told a turn's report, with the machine after it.
    ghost hears: { Self → Report M.State → Machine M M.State M.Data M.Content → Self → Type 0 } = { λ _ _ _ _. ⊤ };

    // What comes of being handed a message.
    ghost takes: { Self → Message M.Content → Self → Type 0 } = { λ _ _ _. ⊤ };

    /// A turn was made: what it did, and the machine after it.
    fn turned(&mut self, report: &Report<M::State>, core: &Core<M>)
        ensures { hears self.old report.now core.now self.new };

    /// A message left the machine. Whoever is told delivers it: the machine knows nothing of it any more.
    fn sent(&mut self, message: Message<M::Content>)
        ensures { takes self.old message self.new };
}
