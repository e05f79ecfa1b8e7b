//! The output, written whole or up to a failure.
ghost use Rattle.std.specs.Prelude.{◌≡◌, ◌+◌, ◌<◌, ◌≤◌, length, MatchResult, OnOk, OnErr};
ghost use Rattle.std.specs.Io.KnownBytes.{Appends};
ghost use Rattle.st_doors.specs.Streams.{AppendsFront};

use crate::failed::Failed;
use crate::sink::Sink;

/// Writes all of the bytes.
///
/// It ends at the first write that fails, and then some front of them is written.
pub fn write_output<W: Sink>(writer: &mut W, bytes: &[u8]) -> Result<(), Failed>
    ensures written { OnOk result (Appends (W.held writer.old) (W.held writer.new) bytes.now) }
    ensures front { OnErr result (AppendsFront (W.held writer.old) (W.held writer.new) bytes.now) }
    ensures failures { MatchResult result (λ _. W.failures writer.new ≡ W.failures writer.old)
        (λ _. W.failures writer.new ≡ W.failures writer.old + 1) }
{
    let mut rest = bytes;
    while !rest.is_empty() {
        let count = writer.write(rest)?;
        rest = &rest[count..];
    }
    Ok(())
}

/// How many bytes the first line has, its line feed among them.
fn first_line_len(bytes: &[u8]) -> usize
    requires { 0 < length bytes.now }
    ensures within { result ≤ length bytes.now }
    ensures some { 0 < result }
{
    match bytes.iter().position(|byte| *byte == b'\n') {
        Some(place) => place + 1,
        None => bytes.len(),
    }
}

/// Writes all of the bytes, each line on its own.
///
/// It ends at the first write that fails, and then some front of them is written.
pub(crate) fn write_by_lines<W: Sink>(writer: &mut W, bytes: &[u8]) -> Result<(), Failed>
    ensures written { OnOk result (Appends (W.held writer.old) (W.held writer.new) bytes.now) }
    ensures front { OnErr result (AppendsFront (W.held writer.old) (W.held writer.new) bytes.now) }
    ensures failures { MatchResult result (λ _. W.failures writer.new ≡ W.failures writer.old)
        (λ _. W.failures writer.new ≡ W.failures writer.old + 1) }
{
    let mut rest = bytes;
    while !rest.is_empty() {
        let (line, more) = rest.split_at(first_line_len(rest));
        write_output(writer, line)?;
        rest = more;
    }
    Ok(())
}
