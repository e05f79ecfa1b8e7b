//! A sender that leaves its worker a message and a woken token at once.
use super::counted;
use st_pool::{Hand, Machines, Message, Token};
use std::alloc::{AllocError, Global};
use std::sync::Arc;
use std::sync::atomic::{AtomicU64, Ordering};

/// The sender in slot 0 leaves a message in the hand in its first turn, and the token of slot 1; in its second turn the
/// message is delivered, and it rests. The machine in slot 1 rests after its second turn.
#[derive(Drop)]
pub struct Eager {
    turns: AtomicU64,
}

impl Eager {
    /// No turn was made yet.
    pub fn new(alloc: Global) -> Result<Arc<Eager>, AllocError> {
        let eager = Eager {
            turns: AtomicU64::new(0),
        };
        Ok(Arc::new(alloc, eager)?)
    }
}

impl Machines for Eager {
    ghost use Rattle.std.specs.Prelude.{◌≡◌, IfSome};

    type Content = u64;

    ghost served = { λ token now answer. IfSome answer (λ back. back ≡ token) };

    fn turn(&self, token: Token, _now: u64, hand: &mut Hand<u64>) -> Option<Token> {
        let message = hand.message.take();
        if token.machine.slot != 0 {
            let turns = self.turns.fetch_add(1, Ordering::SeqCst);
            return if turns % 2 == 0 { Some(token) } else { None };
        }
        if message.is_some() {
            return None;
        }
        hand.message = Some(Message {
            sender: token.machine,
            number: 1,
            target: counted::token(1).machine,
            content: 7,
        });
        hand.woken = Some(counted::token(1));
        Some(token)
    }
}
