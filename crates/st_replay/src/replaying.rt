//! Entries are replayed on a machine.
ghost use Rattle.std.specs.Prelude.{◌≡◌, IfOk, OnOk, OnErr};
ghost use Rattle.st_core.specs.Callbacks.{callbacks_of};
ghost use Rattle.st_replay.specs.Replay.{answers_as, next, Ends};

use crate::Replayed;
use crate::comparing::compared;
use crate::copying::copied_command;
use st_cell::JournalEntry;
use st_core::{Answer, Core, Module};
use std::alloc::{AllocError, Global};

/// Does the command of an entry, and says whether the answer is the entry's. Where there is no memory, for the copy of
/// the command or for the command, the machine is as it was.
fn answers_as<M: Module>(
    alloc: Global,
    core: &mut Core<M>,
    entry: &JournalEntry<M::State, M::Content>,
) -> Result<bool, AllocError>
where
    M::Content: PartialEq,
    ensures same { IfOk result (λ same. same ≡ answers_as (callbacks_of M.Module M.State.eq) ⟦<Answer<M::State, M::Content> as PartialEq>⟧.eq core.old entry.now) }
    ensures next { OnOk result (core.new ≡ next (callbacks_of M.Module M.State.eq) core.old entry.now) }

    ensures unchanged { OnErr result (core.new ≡ core.old) }
{
    let command = copied_command(&entry.command, alloc, core.module())?;
    let answer = core.step(command);
    compared(&answer, &entry.answer)
}

/// Says whether entries are what a machine does, or else which entry is the first that differs: it does the command of
/// each, a copy, and compares the answer with the entry's, by `==`. It stops at the first entry that differs. Entries'
/// numbers and sources are not looked at.
///
/// Where memory is wanted and there is none, it says so and how far it came. The machine stands where it says, so it can
/// be handed the other entries.
///
/// Ours: docs/DECISIONS.md, Journals.
pub fn replay<M: Module>(
    alloc: Global,
    core: &mut Core<M>,
    entries: &[JournalEntry<M::State, M::Content>],
) -> Replayed
where
    M::Content: PartialEq,
    ensures { Ends (callbacks_of M.Module M.State.eq) ⟦<Answer<M::State, M::Content> as PartialEq>⟧.eq result core.old entries.now core.new }
{
    for (agreed, entry) in entries.iter().enumerate() {
        match answers_as(alloc, core, entry) {
            Ok(true) => {}
            Ok(false) => return Replayed::Differs(agreed),
            Err(_) => return Replayed::NoMemory(agreed),
        }
    }
    Replayed::Same
}
