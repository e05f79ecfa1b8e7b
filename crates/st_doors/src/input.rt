//! The whole input, read before anything is done.
ghost use Rattle.std.specs.Prelude.{◌≡◌, ◌≤◌, IfOk, OnOk, MatchResult, Err, length};
ghost use Rattle.std.specs.Io.KnownBytes.{Consumes, IsAtEnd};
ghost use Rattle.st_doors.specs.Streams.{ConsumesMoreThan, failures_after};
ghost use Rattle.st_doors.specs.declared.input.InputFault.TheVariants.{Memory};

use crate::source::Source;
use std::alloc::{AllocError, Global};

/// How many bytes an input may have.
pub const INPUT_LIMIT: usize = 1_048_576;

/// How many bytes are asked for at a time.
const CHUNK: usize = 4096;

/// Why the input could not be read.
#[derive(Clone, Copy, Debug, PartialEq, Eq)]
pub enum InputFault {
    /// A read failed.
    Read,
    /// The input has more than `INPUT_LIMIT` bytes.
    TooLong,
    /// There was no memory for the input.
    Memory,
}

impl From<AllocError> for InputFault {
    ghost from_gives = { λ _ fault. fault ≡ Memory };

    fn from(_e: AllocError) -> InputFault {
        InputFault::Memory
    }
}

/// Reads all that the reader has left, if that is not too much.
///
/// Each read gives a byte or more, or is the last one, so there are at most `INPUT_LIMIT` + 1 of them.
pub fn read_input<R: Source>(alloc: Global, reader: &mut R) -> Result<Vec<u8>, InputFault>
    ensures input { IfOk result (λ input.
        Consumes (R.left reader.old) (R.left reader.new) input.items) }
    ensures whole { OnOk result (IsAtEnd (R.left reader.new)) }
    ensures short { IfOk result (λ input. length input.items ≤ INPUT_LIMIT) }

    ensures too_long { result ≡ Err InputFault.TooLong
        → ConsumesMoreThan (R.left reader.old) (R.left reader.new) INPUT_LIMIT }
    ensures failures { MatchResult result (λ _. R.failures reader.new ≡ R.failures reader.old)
        (λ fault. R.failures reader.new ≡ failures_after fault (R.failures reader.old)) }
{
    let mut input = Vec::new(alloc);
    let mut chunk = [0u8; CHUNK];
    for _ in 0..INPUT_LIMIT + 1 {
        match reader.read(&mut chunk) {
            Err(_) => return Err(InputFault::Read),
            Ok(0) => return Ok(input),
            Ok(count) => {
                input.extend_from_slice(&chunk[..count])?;
                if INPUT_LIMIT < input.len() {
                    return Err(InputFault::TooLong);
                }
            }
        }
    }
    Err(InputFault::TooLong)
}
