//! A token is scheduled, if one was issued.
ghost use Rattle.std.specs.Prelude.{◌≡◌, Some, IfSome};

use crate::Wake;
use st_events::Token;
use std::sync::Wait;

/// Schedules a machine by its token, if it was issued one, and answers the token where it could not be scheduled.
///
/// Ours: docs/DECISIONS.md, Tokens.
pub fn schedule<W: Wake, R: Wait>(rt: &R, wake: &W, token: Option<Token>) -> Option<Token>
    ensures returned { IfSome result (λ left. token ≡ Some left) }
{
    match wake.wake(rt, token?) {
        Ok(()) => None,
        Err(left) => Some(left),
    }
}
