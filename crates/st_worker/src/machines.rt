//! What workers serve.
ghost use Rattle.std.specs.Prelude.{◌≡◌, ℕ, ◌<◌, ◌^◌, Option, None, IsSome, IfSome};
ghost use Rattle.st_events.specs.declared.token.Token.{Token};

use crate::Hand;
use st_events::Token;

/// Any number of machines, which tokens name, and of which many workers make turns at once.
///
/// Ours: docs/DECISIONS.md, Workers.
pub trait Machines {
    /// The content of the messages that the machines send to each other.
    type Content: Drop;

    /// What a turn for a token at a moment may answer. A turn alone promises it.
    ghost served: { Token → ℕ → Option Token → Type 0 };

    /// One turn of the token's machine, at a moment in milliseconds, below 2^63, with what its worker carries.
    ///
    /// A turn may take a message of the machine into the hand, deliver the one that is there, and leave in the hand the
    /// token of a machine that a delivery woke. The worker puts that on its run queue before it serves again.
    ///
    /// The token comes back while it is to be served again, and where a message is left in the hand. `None`: its machine
    /// rests, or is there no more.
    fn turn(&self, token: Token, now: u64, hand: &mut Hand<Self::Content>) -> Option<Token>
        requires below { now < 2 ^ 63 }
        requires woken { hand.old.woken ≡ None }
        ensures served { served token now result }
        ensures returned { IfSome result (λ back. back ≡ token) }
        ensures carrying { IsSome hand.new.message → IsSome result };
}
