//! Laws of replays, for every callback module: what entries that agree say of a machine, and which entries agree. Each is
//! shown once, and calling it does nothing.
ghost use Rattle.std.specs.Prelude.{◌≡◌, Bool, true, List, length, All};
ghost use Rattle.st_answers.specs.declared.answer.Answer.{Answer};
ghost use Rattle.st_core.specs.Callbacks.{Callbacks};
ghost use Rattle.st_core.specs.MachineState.{Machine};
ghost use Rattle.st_core.specs.Run.{Runs};
ghost use Rattle.st_journal.specs.declared.journal_entry.JournalEntry.{JournalEntry};
ghost use Rattle.st_journal.specs.Journal.{commands_of, answers_of};
ghost use Rattle.st_replay.specs.Replay.{FoundMemory, after, agreeing};

use st_core::Module;

/// Entries that a machine answers as they say are what it does: their commands lead from it to the machine after them, and
/// are answered as they say. Where answers compare equal that are one answer alone.
///
/// Ours: docs/DECISIONS.md, Journals.
pub fn a_replayed_journal_is_what_the_machine_does<M: Module>(_module: &M)
    ensures { (callbacks : M → Callbacks M.State M.Data M.Content) (same : Answer M.State M.Content → Answer M.State M.Content → Bool)
        (core : Machine M M.State M.Data M.Content) (entries : List (JournalEntry M.State M.Content))
        → ((one other : Answer M.State M.Content) → same one other ≡ true → one ≡ other)
        → agreeing callbacks same core entries ≡ length entries
        → Runs callbacks core (commands_of entries) (answers_of entries) (after callbacks core entries) }
{}

/// What a machine did is replayed: it answers each entry as it says, and stands behind the last where it stood then. Where
/// each answer compares equal to itself, and none says that memory was wanted.
///
/// Ours: docs/DECISIONS.md, Journals.
pub fn a_journal_of_the_machine_is_replayed<M: Module>(_module: &M)
    ensures agreed { (callbacks : M → Callbacks M.State M.Data M.Content) (same : Answer M.State M.Content → Answer M.State M.Content → Bool)
        (core new : Machine M M.State M.Data M.Content) (entries : List (JournalEntry M.State M.Content))
        → ((one : Answer M.State M.Content) → same one one ≡ true)
        → All FoundMemory entries
        → Runs callbacks core (commands_of entries) (answers_of entries) new
        → agreeing callbacks same core entries ≡ length entries }
    ensures after { (callbacks : M → Callbacks M.State M.Data M.Content)
        (core new : Machine M M.State M.Data M.Content) (entries : List (JournalEntry M.State M.Content))
        → All FoundMemory entries
        → Runs callbacks core (commands_of entries) (answers_of entries) new
        → after callbacks core entries ≡ new }
{}
