//! Scripts.
ghost use Rattle.std.specs.Prelude.{◌≡◌, ◌<◌, ◌≤◌, length, take};
ghost use Rattle.st_door.specs.Script.{output_of, status_of_script};

use crate::codes::{NO_MEMORY, TOO_LONG};
use crate::putting::put;
use crate::told::Told;
use st_door::{Mode, ScriptFault, run_in_memory};
use std::alloc::Global;

/// Runs a script in a mode, and tells what it prints.
pub(crate) fn ran(
    alloc: Global,
    mode: Mode,
    script: &[u8],
    output: &mut [u8],
    told: &mut Told,
) -> u32
    ensures printed { result ≡ 0 → take told.new.length output.new ≡ output_of mode script.now }
    ensures status { result ≡ 0 → told.new.status ≡ status_of_script mode script.now }
    ensures no_faults { result ≡ 0 → told.new.faults ≡ 0 }

    ensures answers { result ≤ 3 }
    ensures too_long { result ≡ 1 → 1048576 < length script.now }
    ensures no_room { result ≡ 3 → length output.old < told.new.length }
    ensures wants { result ≡ 3 → length (output_of mode script.now) ≡ told.new.length }
{
    match run_in_memory(alloc, mode, script) {
        Ok(done) => put(done.output.as_slice(), &[], done.status, output, told),
        Err(ScriptFault::TooLong) => TOO_LONG,
        Err(_) => NO_MEMORY,
    }
}
