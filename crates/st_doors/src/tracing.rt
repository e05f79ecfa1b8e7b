//! A door's trace, written line by line.
ghost use Rattle.std.specs.Prelude.{◌≡◌, ◌+◌, ◌<◌, ◌^◌, ◌++◌, length, IfErr, OnOk, OnErr, MatchResult};
ghost use Rattle.std.specs.Io.KnownBytes.{Appends};
ghost use Rattle.st_trace.specs.Trace.{machine_line, entry_line, entry_lines, summary_line, trace_of};
ghost use Rattle.st_doors.specs.Printing.{state_name_of};
ghost use Rattle.st_doors.specs.ScriptFault.{IsOfInput, write_failures_after};
ghost use Rattle.st_doors.specs.Streams.{AppendsFront};

use crate::door_states::DoorStates;
use crate::output::write_output;
use crate::past::{DoorEntry, Past};
use crate::{MachineId, ScriptFault, Sink};
use st_trace::{Totals, entry_line, latest_after, machine_line, summary_line};
use std::alloc::Global;

/// Writes the line of a door.
#[tactic(auto, using(crate::proofs::StreamLemmas::nothing_written))]
fn write_door<W: Sink>(
    alloc: Global,
    id: MachineId,
    name: &str,
    writer: &mut W,
) -> Result<(), ScriptFault>
    ensures written { OnOk result (Appends (W.held writer.old) (W.held writer.new) (machine_line id name.now)) }

    ensures faults { IfErr result (λ fault. IsOfInput fault → ⊥) }
    ensures failures { MatchResult result (λ _. W.failures writer.new ≡ W.failures writer.old)
        (λ fault. W.failures writer.new ≡ write_failures_after fault (W.failures writer.old)) }
    ensures front { OnErr result (AppendsFront (W.held writer.old) (W.held writer.new) (machine_line id name.now)) }
{
    let line = machine_line(alloc, id, name)?;
    write_output(writer, line.as_str().as_bytes())?;
    Ok(())
}

/// Writes the line of an entry, by the latest moment after it.
#[tactic(auto, using(crate::proofs::StreamLemmas::nothing_written))]
fn write_entry<W: Sink>(
    alloc: Global,
    latest: u64,
    entry: &DoorEntry,
    writer: &mut W,
) -> Result<(), ScriptFault>
    ensures written { OnOk result (Appends (W.held writer.old) (W.held writer.new) (entry_line state_name_of latest entry.now)) }

    ensures faults { IfErr result (λ fault. IsOfInput fault → ⊥) }
    ensures failures { MatchResult result (λ _. W.failures writer.new ≡ W.failures writer.old)
        (λ fault. W.failures writer.new ≡ write_failures_after fault (W.failures writer.old)) }
    ensures front { OnErr result (AppendsFront (W.held writer.old) (W.held writer.new) (entry_line state_name_of latest entry.now)) }
{
    let line = entry_line(alloc, &DoorStates, latest, entry)?;
    write_output(writer, line.as_str().as_bytes())?;
    Ok(())
}

/// Writes the line of what was counted.
#[tactic(auto, using(crate::proofs::StreamLemmas::nothing_written))]
fn write_summary<W: Sink>(alloc: Global, totals: Totals, writer: &mut W) -> Result<(), ScriptFault>
    ensures written { OnOk result (Appends (W.held writer.old) (W.held writer.new) (summary_line totals)) }

    ensures faults { IfErr result (λ fault. IsOfInput fault → ⊥) }
    ensures failures { MatchResult result (λ _. W.failures writer.new ≡ W.failures writer.old)
        (λ fault. W.failures writer.new ≡ write_failures_after fault (W.failures writer.old)) }
    ensures front { OnErr result (AppendsFront (W.held writer.old) (W.held writer.new) (summary_line totals)) }
{
    let line = summary_line(alloc, totals)?;
    write_output(writer, line.as_str().as_bytes())?;
    Ok(())
}

/// Writes the lines of entries, by the latest moment before them. Each is written as it is made, so that the text of the
/// others takes no memory.
fn write_entries<W: Sink>(
    alloc: Global,
    from: u64,
    entries: &[DoorEntry],
    writer: &mut W,
) -> Result<(), ScriptFault>
    ensures written { OnOk result (Appends (W.held writer.old) (W.held writer.new) (entry_lines state_name_of from entries.now)) }

    ensures faults { IfErr result (λ fault. IsOfInput fault → ⊥) }
    ensures failures { MatchResult result (λ _. W.failures writer.new ≡ W.failures writer.old)
        (λ fault. W.failures writer.new ≡ write_failures_after fault (W.failures writer.old)) }
    ensures front { OnErr result (AppendsFront (W.held writer.old) (W.held writer.new) (entry_lines state_name_of from entries.now)) }
{
    let mut latest = from;
    for entry in entries {
        latest = latest_after(latest, &entry.command);
        write_entry(alloc, latest, entry, writer)?;
    }
    Ok(())
}

/// Writes the lines of what a door was told before its journal begins, and of the entries in it.
fn write_lines<W: Sink>(
    alloc: Global,
    past: &Past,
    entries: &[DoorEntry],
    writer: &mut W,
) -> Result<(), ScriptFault>
    ensures written { OnOk result (Appends (W.held writer.old) (W.held writer.new) (entry_lines state_name_of past.now.from (past.now.entries ++ entries.now))) }

    ensures faults { IfErr result (λ fault. IsOfInput fault → ⊥) }
    ensures failures { MatchResult result (λ _. W.failures writer.new ≡ W.failures writer.old)
        (λ fault. W.failures writer.new ≡ write_failures_after fault (W.failures writer.old)) }
    ensures front { OnErr result (AppendsFront (W.held writer.old) (W.held writer.new) (entry_lines state_name_of past.now.from (past.now.entries ++ entries.now))) }
{
    past.write(writer)?;
    write_entries(alloc, past.latest(), entries, writer)
}

/// Writes the trace of a door of this id under a name, by what it was told before its journal begins, and the entries in it.
pub(crate) fn write_trace<W: Sink>(
    alloc: Global,
    id: MachineId,
    name: &str,
    past: &Past,
    entries: &[DoorEntry],
    writer: &mut W,
) -> Result<(), ScriptFault>
    requires { length past.now.entries + length entries.now < 2 ^ 63 }
    ensures written { OnOk result (Appends (W.held writer.old) (W.held writer.new) (trace_of id name.now past.now.from (past.now.entries ++ entries.now) state_name_of)) }

    ensures faults { IfErr result (λ fault. IsOfInput fault → ⊥) }
    ensures failures { MatchResult result (λ _. W.failures writer.new ≡ W.failures writer.old)
        (λ fault. W.failures writer.new ≡ write_failures_after fault (W.failures writer.old)) }
    ensures front { OnErr result (AppendsFront (W.held writer.old) (W.held writer.new) (trace_of id name.now past.now.from (past.now.entries ++ entries.now) state_name_of)) }
{
    write_door(alloc, id, name, writer)?;
    write_lines(alloc, past, entries, writer)?;
    write_summary(alloc, past.totals_with(entries), writer)
}
