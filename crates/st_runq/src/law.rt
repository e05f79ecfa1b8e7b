//! What the rule of a run queue says of each token.
ghost use Rattle.std.specs.Prelude.{◌≡◌, ◌+◌, ◌≤◌, Bool, List};
ghost use Rattle.st_events.specs.declared.token.Token.{Token};
ghost use Rattle.st_runq.specs.declared.seen.Seen.{Seen};
ghost use Rattle.st_runq.specs.RunQueue.{count, count_taken, put_by};

use crate::seen::Seen;
use crate::steps::TakenOnce;
use crossbeam_deque::protocol::Protocol;
use st_events::Token;

/// A law. Where the rule that run queues keep holds, and it holds after every step, tokens were put as often as they were
/// taken and are still in the queue, whichever tokens one counts. So a token that was taken was put, and was taken at most
/// as often as it was put.
pub fn taken_was_put()
    ensures all { (tokens : List Token) (ends : List Seen) (test : Token → Bool)
        → ⟦<TakenOnce as Protocol<Token, Seen>>⟧.holds tokens ends
        → count_taken test ends + count test tokens ≡ count test (put_by ends) }
    ensures most { (tokens : List Token) (ends : List Seen) (test : Token → Bool)
        → ⟦<TakenOnce as Protocol<Token, Seen>>⟧.holds tokens ends
        → count_taken test ends ≤ count test (put_by ends) }
{}
