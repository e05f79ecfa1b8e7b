//! A token is served.
ghost use Rattle.std.specs.Prelude.{◌≡◌, ◌<◌, ◌^◌, None, IsSome, IfSome};

use crate::{Hand, Machines};
use st_events::Token;

/// Serves a token: one turn of its machine, at a moment in milliseconds, below 2^63, with what its worker carries.
///
/// The token comes back while it is to be served again, and where a message is left in the hand.
///
/// Ours: docs/DECISIONS.md, Workers.
pub fn serve_one<M: Machines>(
    machines: &M,
    token: Token,
    now: u64,
    hand: &mut Hand<M::Content>,
) -> Option<Token>
    requires below { now < 2 ^ 63 }
    requires woken { hand.old.woken ≡ None }
    ensures served { M.served token now result }
    ensures returned { IfSome result (λ back. back ≡ token) }
    ensures carrying { IsSome hand.new.message → IsSome result }
{
    machines.turn(token, now, hand)
}
