//! Who is told what machines did.
ghost use Rattle.std.specs.Prelude.{◌≡◌, option_copied};
ghost use Rattle.st_service.specs.Reports.{report_in};

use st_hall::{MachineId, Module};
use st_lock::{Answer, JournalEntry, Report, Turned};

/// Who is told each entry of each machine's journal, once: the report of each turn with the states before and after it, and
/// what else the machine was told. This is how effects leave a machine.
///
/// It is called by who served the machine, a worker or a caller, who has no lock then. So it may post, by `cast`, `info` and
/// `send_request`. It never calls, nor waits for a reply: who is told is who serves, so the machine that is to reply may wait
/// for the observer, and the service that shuts down too. Where it wants an answer, it hands the `RequestId` to another thread,
/// through a channel, and that one receives the reply. Entries of one machine may come from two threads at once: the entries'
/// numbers say their order.
///
/// Ours: docs/DECISIONS.md, Services; manual: the introduction, on actions of a state machine.
pub trait Observer<M: Module> {
    /// Whether it wants to be told. Where it does not, nothing is copied for it.
    fn observes(&self) -> bool;

    /// A machine was told a command, and answered so.
    fn observe(&self, machine: MachineId, entry: &JournalEntry<M::State, M::Content>);
}

/// Nobody is told anything.
///
/// Ours: docs/DECISIONS.md, Services.
#[derive(Clone, Copy, Debug, PartialEq, Eq, Drop)]
pub struct Nobody;

impl<M: Module> Observer<M> for Nobody {
    fn observes(&self) -> bool {
        false
    }

    fn observe(&self, _machine: MachineId, _entry: &JournalEntry<M::State, M::Content>) {}
}

/// The report of a turn, where the entry is one of a turn.
///
/// Ours: docs/DECISIONS.md, Services.
pub fn report_of<S, C>(entry: &JournalEntry<S, C>) -> Option<&Report<S>>
    ensures { option_copied result ≡ report_in entry.now }
{
    match &entry.answer {
        Answer::Turn(Ok(Turned::Reported(report))) => Some(report),
        _ => None,
    }
}
