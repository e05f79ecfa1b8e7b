//! Who schedules tokens.
ghost use Rattle.std.specs.Prelude.{◌≡◌, IfErr};

use st_events::Token;
use std::sync::Wait;

/// Who is handed a token that was issued, and sees to it that its machine is served.
///
/// Ours: docs/DECISIONS.md, Tokens.
pub trait Wake {
    /// Schedules the machine of a token. A token that cannot be scheduled comes back.
    fn wake<R: Wait>(&self, rt: &R, token: Token) -> Result<(), Token>
        ensures returned { IfErr result (λ back. back ≡ token) };
}
