//! Laws of cells: what is so of each of them at every moment. Calling one does nothing.
ghost use Rattle.std.specs.Prelude.{◌≡◌, ℕ, ◌-◌, ◌≤◌, ◌<◌, ◌^◌, None, [], length};
ghost use Rattle.st_core.specs.Accounting.{IsAccounted};
ghost use Rattle.st_core.specs.Callbacks.{callbacks_of};
ghost use Rattle.st_scheduled.specs.ScheduledMachine.{HasTokenForWork};
ghost use Rattle.st_cell.specs.Cell.{IsJournaled, IsOpen, count_for};
ghost use Rattle.st_journal.specs.Journal.{IsReplay, AreNumbered, answers_of, posts_of};

use crate::Cell;
use st_events::Module;

/// All that a cell is at every moment, in one: its base is lawful, and the laws below hold of it.
///
/// Ours: docs/TRANSITIONS.md, Journals.
pub fn a_cell_is_journaled<M: Module>(cell: &Cell<M>)
    ensures { IsJournaled (callbacks_of M.Module M.State.eq) cell.now }
{
    let _ = &cell.journaled;
}

/// A machine in a cell is the replay of its journal from its base: the journal's commands lead there from the base, each
/// with the answer that the journal keeps.
///
/// Ours: docs/TRANSITIONS.md, Journals.
pub fn a_cell_is_the_replay_of_its_journal<M: Module>(cell: &Cell<M>)
    ensures { IsReplay (callbacks_of M.Module M.State.eq) cell.now.base cell.now.journal cell.now.scheduled.core }
{
    let _ = &cell.journaled;
}

/// The entries of a journal are numbered without gaps, and the last one's number is the machine's count of commands.
///
/// Ours: docs/TRANSITIONS.md, Journals.
pub fn a_journal_is_numbered_without_gaps<M: Module>(cell: &Cell<M>)
    ensures numbered { AreNumbered (cell.now.scheduled.count - length cell.now.journal) cell.now.journal cell.now.scheduled.count }
    ensures enough { length cell.now.journal ≤ cell.now.scheduled.count }
{
    let _ = &cell.journaled;
}

/// A machine in a cell that has work, ended or not, has an outstanding token. A token may outlast the last message.
///
/// Ours: docs/TRANSITIONS.md, Journals.
pub fn a_cell_has_a_token_for_work<M: Module>(cell: &Cell<M>)
    ensures { HasTokenForWork cell.now.scheduled }
{
    let _ = &cell.journaled;
}

/// No event is lost and none is finished twice: as long as the machine has not ended, each number that waited in the base
/// or was accepted by the journal waits still, or was finished by it once.
///
/// Ours: docs/TRANSITIONS.md, Accounting.
pub fn a_cell_is_accounted<M: Module>(cell: &Cell<M>)
    ensures { cell.now.scheduled.core.machine.ended ≡ None → IsAccounted cell.now.base (answers_of cell.now.journal) cell.now.scheduled.core.machine }
{
    let _ = &cell.journaled;
}

/// The journal has no more posts of a port than the port made: some may be cut away. And the port made fewer than 2^63.
///
/// Ours: docs/TRANSITIONS.md, Journals.
pub fn a_port_has_no_more_posts_than_its_count<M: Module>(cell: &Cell<M>)
    ensures fewer { (port : ℕ) → IsOpen port cell.now → length (posts_of port cell.now.journal) ≤ count_for port cell.now }
    ensures limited { (port : ℕ) → IsOpen port cell.now → count_for port cell.now < 2 ^ 63 }
{
    let _ = &cell.journaled;
}

/// The journal has no posts of a port that is not open.
///
/// Ours: docs/TRANSITIONS.md, Journals.
pub fn a_port_that_is_not_open_has_no_posts<M: Module>(cell: &Cell<M>)
    ensures { (port : ℕ) → length cell.now.ports < port → posts_of port cell.now.journal ≡ [] }
{
    let _ = &cell.journaled;
}
