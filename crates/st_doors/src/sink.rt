//! What a script's output is written to.
ghost use Rattle.std.specs.Prelude.{◌≡◌, ℕ, ◌+◌, ◌<◌, List, length, IfOk, MatchResult, Option};
ghost use Rattle.std.specs.Io.{WritesAtMost};
ghost use Rattle.std.specs.Io.KnownBytes.{WriteAppends};

use crate::failed::Failed;

/// What bytes are written to.
pub trait Sink {
    // The bytes that were written, where they are known.
    ghost held: { Self → Option (List ℕ) };

    // How many writes have failed.
    ghost failures: { Self → ℕ };

    /// Writes at least one byte from the front of `buf`, and answers how many.
    /// To take none is to fail.
    fn write(&mut self, buf: &[u8]) -> Result<usize, Failed>
        requires some { 0 < length buf.now }
        ensures some { IfOk result (λ n. 0 < n) }
        ensures bound { WritesAtMost result buf.now }
        ensures bytes { WriteAppends (held self.old) (held self.new) result buf.now }
        ensures failures { MatchResult result (λ _. failures self.new ≡ failures self.old)
            (λ _. failures self.new ≡ failures self.old + 1) };
}
