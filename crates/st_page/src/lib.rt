//! What a web page calls: descriptions, events and scripts as bytes go in, and what is told of them comes out.
//! It keeps nothing from one call to the next.
#![tactic(auto)]

ghost use Rattle.std.specs.Prelude.{◌+◌, ◌≡◌, ◌<◌, ◌≤◌, ◌↔◌, ◌⊎◌, length, take};
ghost use Rattle.st_door.specs.Script.{output_of, status_of_script};
ghost use Rattle.st_door.specs.declared.mode.Mode.TheVariants.{Run, Trace};

mod codes;
mod machines;
mod putting;
mod scripts;
mod shelf;
mod told;

use codes::{INVALID, TOO_LONG};
use st_door::Mode;
use std::alloc::Global;
use told::Told;

/// How many bytes an input has at most.
pub const LIMIT: usize = 1_048_576;

/// Does something with a description: checks it (0), draws it as Mermaid (1) or as DOT (2), runs it over lines of events
/// and tells what comes (3), its traces (4) or its journals as JSON (5), tries it over cases (6), lays it out (7), or runs it and tells behind each line
/// how all machines are, as JSON (8).
///
/// The description counts as the file `machine.json`, and there is no other file.
#[unsafe(no_mangle)]
pub extern "C" fn st_page_machine(
    alloc: Global,
    what: u32,
    description: &[u8],
    events: &[u8],
    output: &mut [u8],
    told: &mut Told,
) -> u32
    ensures room { result ≡ 0 → told.new.length + told.new.faults ≤ length output.new }

    ensures answers { result ≤ 4 }
    ensures invalid { result ≡ 4 ↔ 8 < what }
    ensures too_long { result ≡ 1 → (1048576 < length description.now) ⊎ (1048576 < length events.now) }
    ensures no_room { result ≡ 3 → length output.old < told.new.length + told.new.faults }
{
    if what > 8 {
        return INVALID;
    }
    if description.len() > LIMIT {
        return TOO_LONG;
    }
    if events.len() > LIMIT {
        return TOO_LONG;
    }
    machines::done(alloc, what, description, events, output, told)
}

/// Runs a script, and tells what it prints (0) or its traces (1).
#[unsafe(no_mangle)]
pub extern "C" fn st_page_script(
    alloc: Global,
    what: u32,
    script: &[u8],
    output: &mut [u8],
    told: &mut Told,
) -> u32
    ensures printed { result ≡ 0 → what ≡ 0 → (take told.new.length output.new ≡ output_of Run script.now) × (told.new.status ≡ status_of_script Run script.now) }
    ensures traced { result ≡ 0 → what ≡ 1 → (take told.new.length output.new ≡ output_of Trace script.now) × (told.new.status ≡ status_of_script Trace script.now) }
    ensures no_faults { result ≡ 0 → told.new.faults ≡ 0 }

    ensures answers { result ≤ 4 }
    ensures invalid { result ≡ 4 ↔ 1 < what }
    ensures too_long { result ≡ 1 → 1048576 < length script.now }
    ensures no_room { result ≡ 3 → length output.old < told.new.length }
    ensures printed_wants { result ≡ 3 → what ≡ 0 → length (output_of Run script.now) ≡ told.new.length }
    ensures traced_wants { result ≡ 3 → what ≡ 1 → length (output_of Trace script.now) ≡ told.new.length }
{
    match what {
        0 => scripts::ran(alloc, Mode::Run, script, output, told),
        1 => scripts::ran(alloc, Mode::Trace, script, output, told),
        _ => INVALID,
    }
}
