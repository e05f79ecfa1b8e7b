//! A script as a whole, whose doors are served by workers: bytes in, bytes out, and a status.
ghost use Rattle.std.specs.Prelude.{◌≡◌, ◌≤◌, IfOk, IfErr, OnOk, MatchResult, Err};
ghost use Rattle.std.specs.Io.KnownBytes.{IsAtEnd, Keeps};
ghost use Rattle.st_doors.specs.ScriptFault.{IsOfInput, read_failures_after, write_failures_after};
ghost use Rattle.st_doors.specs.Streams.{ConsumesMoreThan};

use crate::Runtime;
use crate::pooled_script::PooledScript;
use st_door::{
    INPUT_LIMIT, ScriptFault, Sink, Source, is_fault, printed, read_input, read_line, split_lines,
    without_return, write_output,
};
use std::alloc::Global;

/// Starts the workers, does the lines of an input and writes what they print, line by line.
fn run_lines<R: Runtime, W: Sink>(
    rt: R,
    alloc: Global,
    workers: usize,
    input: &[u8],
    writer: &mut W,
) -> Result<u8, ScriptFault>
    requires { (1 ≤ workers) × (workers ≤ 16) }
    ensures status { IfOk result (λ status. status ≤ 1) }

    ensures faults { IfErr result (λ fault. IsOfInput fault → ⊥) }
    ensures failures { MatchResult result (λ _. W.failures writer.new ≡ W.failures writer.old)
        (λ fault. W.failures writer.new ≡ write_failures_after fault (W.failures writer.old)) }
{
    let lines = split_lines(alloc, input)?;
    let mut script = PooledScript::start(rt, alloc, workers)?;
    let mut faulty = false;
    for (index, bytes) in lines.iter().enumerate() {
        let line = read_line(alloc, without_return(bytes))?;
        let effect = script.obey(line)?;
        faulty |= is_fault(&effect);
        let text = printed(alloc, index as u64 + 1, effect)?;
        write_output(writer, text.as_str().as_bytes())?;
    }
    Ok(if faulty { 1 } else { 0 })
}

/// Reads a script, does its lines and writes what they print, as `run_script` does, but the turns of its doors are made by
/// 1 to 16 workers, each in a thread of its own. The answer is the status: 1 where a line was refused or malformed, else 0.
///
/// The whole input is read before the workers start, and they start before the first line is done. After each line's
/// action it waits until they rest, and then the line is printed. The output is written line by line. However it ends, the
/// workers' threads are joined.
///
/// `Read`: a read failed. `TooLong`: the input has more than 1,048,576 bytes. After these nothing was written. `Write`: a
/// write failed or took no bytes. `Memory`: memory was wanted and there was none, for a turn too, or no thread could be
/// started. After these what was written is a front of the output.
///
/// No clause says what is written, nor that it ends.
///
/// Ours: docs/SCRIPTS.md.
pub fn run_pool<R: Runtime, S: Source, W: Sink>(
    rt: R,
    alloc: Global,
    workers: usize,
    reader: &mut S,
    writer: &mut W,
) -> Result<u8, ScriptFault>
    requires { (1 ≤ workers) × (workers ≤ 16) }
    // The whole input was read.
    ensures status { IfOk result (λ status. status ≤ 1) }
    ensures whole { OnOk result (IsAtEnd (S.left reader.new)) }

    // When each fault comes: a read has failed, more was read than may be, a write has failed.
    ensures read_failures { MatchResult result (λ _. S.failures reader.new ≡ S.failures reader.old)
        (λ fault. S.failures reader.new ≡ read_failures_after fault (S.failures reader.old)) }
    ensures too_long { result ≡ Err ScriptFault.TooLong → ConsumesMoreThan (S.left reader.old) (S.left reader.new) INPUT_LIMIT }
    ensures write_failures { MatchResult result (λ _. W.failures writer.new ≡ W.failures writer.old)
        (λ fault. W.failures writer.new ≡ write_failures_after fault (W.failures writer.old)) }

    // What a fault leaves: nothing is written where the input could not be had.
    ensures unwritten { IfErr result (λ fault. IsOfInput fault → Keeps (W.held writer.old) (W.held writer.new)) }
{
    let input = read_input(alloc, reader)?;
    run_lines(rt, alloc, workers, input.as_slice(), writer)
}
