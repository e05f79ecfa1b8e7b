//! An input cut into lines, and a line into words.
ghost use Rattle.std.specs.Prelude.{◌≡◌, ◌==◌, IfOk, map};
ghost use Rattle.std.specs.List.{slice_split};
ghost use Rattle.st_doors.specs.Lines.{line_feed, whole_pieces, without_return, words};

use std::alloc::{AllocError, Global};

/// What stands between line feeds, the last piece included.
fn pieces(alloc: Global, input: &[u8]) -> Result<Vec<&[u8]>, AllocError>
    ensures { IfOk result (λ pieces.
        map (λ piece. piece.now) pieces.items ≡ slice_split (λ b. b == line_feed) input.now) }
{
    input.split(|b| *b == b'\n').collect(alloc)
}

/// The lines of an input, each as it stands between line feeds. An empty last piece is no line.
pub fn split_lines(alloc: Global, input: &[u8]) -> Result<Vec<&[u8]>, AllocError>
    ensures { IfOk result (λ lines. map (λ line. line.now) lines.items
        ≡ whole_pieces (slice_split (λ b. b == line_feed) input.now)) }
{
    let mut pieces = pieces(alloc, input)?;
    match pieces.pop() {
        None => Ok(pieces),
        Some(last) if last.is_empty() => Ok(pieces),
        Some(last) => {
            pieces.push(last)?;
            Ok(pieces)
        }
    }
}

/// A line without the one carriage return at its end.
pub fn without_return(line: &[u8]) -> &[u8]
    ensures { result.now ≡ without_return line.now }
{
    match line {
        [front @ .., b'\r'] => front,
        _ => line,
    }
}

/// The words of a line: what stands between its spaces.
pub fn words(alloc: Global, line: &[u8]) -> Result<Vec<&[u8]>, AllocError>
    ensures { IfOk result (λ found. map (λ word. word.now) found.items ≡ words line.now) }
{
    line.split(|b| *b == b' ')
        .filter(|word| !word.is_empty())
        .collect(alloc)
}
