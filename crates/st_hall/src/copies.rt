//! Copies of names.
ghost use Rattle.std.specs.Prelude.{◌≡◌, IfOk};
ghost use Rattle.st_directory.specs.Entries.{names_of_entries};

use indexmap::map::Iter;
use st_registry::MachineId;
use std::alloc::{AllocError, Global};

/// A copy of names with the ids that they name, in order.
pub(crate) fn copied(
    alloc: Global,
    names: Iter<'_, String, MachineId>,
) -> Result<Vec<(String, MachineId)>, AllocError>
    ensures { IfOk result (λ copy. names_of_entries copy.items ≡ names_of_entries names.entry) }
{
    let mut copy = Vec::new(alloc);
    for (name, id) in names {
        copy.push((String::from_str(alloc, name.as_str())?, *id))?;
    }
    Ok(copy)
}
