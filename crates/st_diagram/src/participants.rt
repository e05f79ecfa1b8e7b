//! Who takes part in a sequence diagram: words that Mermaid takes as names.
ghost use Rattle.std.specs.Prelude.{◌≡◌, IfOk, string_bytes};
ghost use Rattle.st_diagram.specs.Sequence.{machine_name, source_name};

use st_cell::Source;
use st_events::MachineId;
use std::alloc::{AllocError, Global};

/// Another machine.
pub(crate) fn machine(alloc: Global, id: MachineId) -> Result<String, AllocError>
    ensures { IfOk result (λ text. string_bytes text ≡ machine_name id) }
{
    let MachineId { slot, serial } = id;
    format!(in alloc; "machine{slot}_{serial}")
}

/// Whoever posted an event.
pub(crate) fn source(alloc: Global, source: Source) -> Result<String, AllocError>
    ensures { IfOk result (λ text. string_bytes text ≡ source_name source) }
{
    match source {
        Source::Caller => String::from_str(alloc, "caller"),
        Source::Port(port) => format!(in alloc; "port{port}"),
        Source::Message(sender, _) => machine(alloc, sender),
    }
}
