//! Machines that are described in texts.
ghost use Rattle.std.specs.Prelude.{◌+◌, ◌≡◌, ◌<◌, ◌≤◌, ◌⊎◌, length};

use crate::codes::NO_MEMORY;
use crate::putting::put;
use crate::shelf::NoFiles;
use crate::told::Told;
use st_machine::{
    Drawing, Format, Output, Tested, check_text, draw_text, format_text, run_text, test_text,
};
use std::alloc::{AllocError, Global};

/// The name of the file that the description counts as.
const FILE: &str = "machine.json";

/// Puts what came of a description.
fn put_output(made: Result<Output, AllocError>, output: &mut [u8], told: &mut Told) -> u32
    ensures room { result ≡ 0 → told.new.length + told.new.faults ≤ length output.new }

    ensures answers { (result ≡ 0) ⊎ (result ≡ 2) ⊎ (result ≡ 3) }
    ensures no_room { result ≡ 3 → length output.old < told.new.length + told.new.faults }
{
    match made {
        Ok(made) => put(
            made.text.as_slice(),
            made.faults.as_slice(),
            made.status,
            output,
            told,
        ),
        Err(_) => NO_MEMORY,
    }
}

/// Puts what came of cases.
fn put_tested(made: Result<Tested, AllocError>, output: &mut [u8], told: &mut Told) -> u32
    ensures room { result ≡ 0 → told.new.length + told.new.faults ≤ length output.new }

    ensures answers { (result ≡ 0) ⊎ (result ≡ 2) ⊎ (result ≡ 3) }
    ensures no_room { result ≡ 3 → length output.old < told.new.length + told.new.faults }
{
    match made {
        Ok(made) => put(
            made.text.as_slice(),
            made.faults.as_slice(),
            made.status,
            output,
            told,
        ),
        Err(_) => NO_MEMORY,
    }
}

/// What comes of a description and lines of events.
fn made(alloc: Global, what: u32, description: &[u8], events: &[u8]) -> Result<Output, AllocError> {
    match what {
        0 => check_text(alloc, FILE, description),
        1 => draw_text(alloc, FILE, description, Drawing::Mermaid),
        2 => draw_text(alloc, FILE, description, Drawing::Dot),
        3 => run_text(
            alloc,
            FILE,
            description,
            events,
            Format::Plain,
            &mut NoFiles,
        ),
        4 => run_text(
            alloc,
            FILE,
            description,
            events,
            Format::Trace,
            &mut NoFiles,
        ),
        5 => run_text(alloc, FILE, description, events, Format::Json, &mut NoFiles),
        8 => run_text(alloc, FILE, description, events, Format::Look, &mut NoFiles),
        _ => format_text(alloc, FILE, description),
    }
}

/// Does what is asked for, and puts what came.
pub(crate) fn done(
    alloc: Global,
    what: u32,
    description: &[u8],
    events: &[u8],
    output: &mut [u8],
    told: &mut Told,
) -> u32
    ensures room { result ≡ 0 → told.new.length + told.new.faults ≤ length output.new }

    ensures answers { (result ≡ 0) ⊎ (result ≡ 2) ⊎ (result ≡ 3) }
    ensures no_room { result ≡ 3 → length output.old < told.new.length + told.new.faults }
{
    if what == 6 {
        let made = test_text(alloc, FILE, description, events, &mut NoFiles);
        return put_tested(made, output, told);
    }
    put_output(made(alloc, what, description, events), output, told)
}
