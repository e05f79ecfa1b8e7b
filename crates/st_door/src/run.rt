//! A script as a whole: bytes in, bytes out, and a status.
ghost use Rattle.std.specs.Prelude.{◌≡◌, IfOk, IfErr, IfSome, OnOk, OnErr, MatchResult, Err};
ghost use Rattle.std.specs.Io.KnownBytes.{Appends, IsAtEnd, Keeps};
ghost use Rattle.st_door.specs.Grammar.{line_of};
ghost use Rattle.st_doors.specs.Lines.{lines, without_return};
ghost use Rattle.st_door.specs.Script.{DoesSome, faulty_from, first_script_state, is_fault, output_of, printed_of, script_after, status_of_script, step_of};
ghost use Rattle.st_doors.specs.ScriptFault.{IsOfInput, read_failures_after, write_failures_after};
ghost use Rattle.st_doors.specs.Streams.{AppendsFront, ConsumesMoreThan};
ghost use Rattle.st_door.specs.declared.mode.Mode.TheVariants.{Run, Trace};

use crate::Mode;
use crate::effect::Effect;
use crate::line::read_line;
use crate::lines::{split_lines, without_return};
use crate::printed_line::printed;
use crate::script::Script;
use st_doors::{INPUT_LIMIT, ScriptFault, Sink, Source, read_input, write_output};
use std::alloc::{AllocError, Global};

/// Whether what a line brings about makes the script's status 1.
pub fn is_fault(effect: &Effect) -> bool
    ensures { result ≡ is_fault effect.now }
{
    matches!(effect, Effect::Refuses(_) | Effect::Malformed)
}

/// Does a line, and answers what it brings about.
fn obey_bytes(alloc: Global, script: &mut Script, bytes: &[u8]) -> Result<Effect, AllocError>
    ensures effect { IfOk result (λ effect. effect ≡ (step_of script.old (line_of (without_return bytes.now))).0) }
    ensures script { OnOk result (script.new ≡ (step_of script.old (line_of (without_return bytes.now))).1) }
{
    let line = read_line(alloc, without_return(bytes))?;
    script.obey(line)
}

/// Does the line of a number and writes what it prints, and says whether it was refused or malformed.
fn run_line<W: Sink>(
    alloc: Global,
    script: &mut Script,
    number: u64,
    bytes: &[u8],
    writer: &mut W,
) -> Result<bool, ScriptFault>
    ensures faulty { IfOk result (λ faulty. faulty ≡ is_fault (step_of script.old (line_of (without_return bytes.now))).0) }
    ensures script { OnOk result (script.new ≡ (step_of script.old (line_of (without_return bytes.now))).1) }
    ensures written { OnOk result (Appends (W.held writer.old) (W.held writer.new)
        (printed_of number (step_of script.old (line_of (without_return bytes.now))).0)) }

    ensures faults { IfErr result (λ fault. IsOfInput fault → ⊥) }
    ensures failures { MatchResult result (λ _. W.failures writer.new ≡ W.failures writer.old)
        (λ fault. W.failures writer.new ≡ write_failures_after fault (W.failures writer.old)) }
    ensures front { OnErr result (AppendsFront (W.held writer.old) (W.held writer.new)
        (printed_of number (step_of script.old (line_of (without_return bytes.now))).0)) }
{
    let effect = obey_bytes(alloc, script, bytes)?;
    let faulty = is_fault(&effect);
    let text = printed(alloc, number, effect)?;
    write_output(writer, text.as_str().as_bytes())?;
    Ok(faulty)
}

/// Does the lines of an input and writes what they print, line by line.
pub(crate) fn run_input<W: Sink>(
    alloc: Global,
    input: &[u8],
    writer: &mut W,
) -> Result<u8, ScriptFault>
    ensures status { IfOk result (λ status. status ≡ status_of_script Run input.now) }
    ensures output { OnOk result (Appends (W.held writer.old) (W.held writer.new) (output_of Run input.now)) }

    ensures faults { IfErr result (λ fault. IsOfInput fault → ⊥) }
    ensures failures { MatchResult result (λ _. W.failures writer.new ≡ W.failures writer.old)
        (λ fault. W.failures writer.new ≡ write_failures_after fault (W.failures writer.old)) }
    ensures front { OnErr result (AppendsFront (W.held writer.old) (W.held writer.new) (output_of Run input.now)) }
{
    let lines = split_lines(alloc, input)?;
    let mut script = Script::new(alloc, Mode::Run);
    let mut faulty = false;
    for (index, bytes) in lines.iter().enumerate() {
        faulty |= run_line(alloc, &mut script, index as u64 + 1, bytes, writer)?;
    }
    Ok(if faulty { 1 } else { 0 })
}

/// Does the lines of an input, of which a script in mode `Trace` is made, and says whether one was refused or malformed.
fn trace_lines(alloc: Global, input: &[u8]) -> Result<(Script, bool), AllocError>
    ensures script { IfOk result (λ done. done.0 ≡ script_after (first_script_state Trace) (lines input.now)) }
    ensures faulty { IfOk result (λ done. done.1 ≡ faulty_from (first_script_state Trace) (lines input.now)) }
{
    let lines = split_lines(alloc, input)?;
    let mut script = Script::new(alloc, Mode::Trace);
    let mut faulty = false;
    for bytes in lines.iter() {
        let effect = obey_bytes(alloc, &mut script, bytes)?;
        faulty |= is_fault(&effect);
    }
    Ok((script, faulty))
}

/// Does the lines of an input, and then writes the traces of the doors that are left.
pub(crate) fn trace_input<W: Sink>(
    alloc: Global,
    input: &[u8],
    writer: &mut W,
) -> Result<u8, ScriptFault>
    ensures status { IfOk result (λ status. status ≡ status_of_script Trace input.now) }
    ensures output { OnOk result (Appends (W.held writer.old) (W.held writer.new) (output_of Trace input.now)) }

    ensures faults { IfErr result (λ fault. IsOfInput fault → ⊥) }
    ensures failures { MatchResult result (λ _. W.failures writer.new ≡ W.failures writer.old)
        (λ fault. W.failures writer.new ≡ write_failures_after fault (W.failures writer.old)) }
    ensures front { OnErr result (AppendsFront (W.held writer.old) (W.held writer.new) (output_of Trace input.now)) }
{
    let (script, faulty) = trace_lines(alloc, input)?;
    script.write_traces(writer)?;
    Ok(if faulty { 1 } else { 0 })
}

/// Reads a script, does its lines and writes what they print; or, in mode `Trace`, the traces of the doors that are left at
/// its end. The answer is the status: 1 where a line was refused or malformed, else 0.
///
/// The whole input is read before the first line is done. The output is written line by line; a trace while it is made,
/// piece by piece.
///
/// `Read`: a read failed. `TooLong`: the input has more than 1,048,576 bytes. After these nothing was
/// written. `Write`: a write failed or took no bytes. `Memory`: memory was wanted and there was none.
/// After these what was written is a front of the output.
///
/// Ours: docs/SCRIPTS.md.
pub fn run_script<R: Source, W: Sink>(
    alloc: Global,
    mode: Mode,
    reader: &mut R,
    writer: &mut W,
) -> Result<u8, ScriptFault>
    // The whole input was read, and status and output are the script's.
    ensures status { IfOk result (λ status. IfSome (R.left reader.old) (λ input. status ≡ status_of_script mode input)) }
    ensures output { OnOk result (IfSome (R.left reader.old) (λ input. Appends (W.held writer.old) (W.held writer.new) (output_of mode input))) }
    ensures whole { OnOk result (IsAtEnd (R.left reader.new)) }

    // So it is too where the reader's bytes are not known: then they are the script's of some input.
    ensures some { IfOk result (λ status. DoesSome mode (R.left reader.old) (R.left reader.new) (W.held writer.old) (W.held writer.new) status) }

    // When each fault comes: a read has failed, more was read than may be, a write has failed.
    ensures read_failures { MatchResult result (λ _. R.failures reader.new ≡ R.failures reader.old)
        (λ fault. R.failures reader.new ≡ read_failures_after fault (R.failures reader.old)) }
    ensures too_long { result ≡ Err ScriptFault.TooLong → ConsumesMoreThan (R.left reader.old) (R.left reader.new) INPUT_LIMIT }
    ensures write_failures { MatchResult result (λ _. W.failures writer.new ≡ W.failures writer.old)
        (λ fault. W.failures writer.new ≡ write_failures_after fault (W.failures writer.old)) }

    // What a fault leaves: a front of the output is written, and nothing where the input could not be had.
    ensures front { OnErr result (IfSome (R.left reader.old) (λ input. AppendsFront (W.held writer.old) (W.held writer.new) (output_of mode input))) }
    ensures unwritten { IfErr result (λ fault. IsOfInput fault → Keeps (W.held writer.old) (W.held writer.new)) }
{
    let input = read_input(alloc, reader)?;
    match mode {
        Mode::Run => run_input(alloc, input.as_slice(), writer),
        Mode::Trace => trace_input(alloc, input.as_slice(), writer),
    }
}
