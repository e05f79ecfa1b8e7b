//! Commands are copied, their contents by whatever copies contents.
ghost use Rattle.std.specs.Prelude.{◌≡◌, IfOk};

use st_core::Command;
use st_events::CopyContent;
use std::alloc::{AllocError, Global};

/// A copy of a command.
pub(crate) fn copied_command<C: Drop, K: CopyContent<C>>(
    command: &Command<C>,
    alloc: Global,
    copier: &K,
) -> Result<Command<C>, AllocError>
    ensures { IfOk result (λ copy. copy ≡ command.now) }
{
    match command {
        Command::Post(entry, content) => {
            Ok(Command::Post(*entry, copier.copy_of(alloc, content)?))
        }
        Command::Tick(now) => Ok(Command::Tick(*now)),
        Command::Turn(now) => Ok(Command::Turn(*now)),
        Command::Reply(tag, content) => Ok(Command::Reply(*tag, copier.copy_of(alloc, content)?)),
        Command::Collect(tag) => Ok(Command::Collect(*tag)),
        Command::Stop(reason) => Ok(Command::Stop(*reason)),
        Command::TakeOut => Ok(Command::TakeOut),
    }
}
