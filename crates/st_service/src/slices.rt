//! Machines that are served for several turns at once.
ghost use Rattle.std.specs.Prelude.{◌≡◌, ◌<◌, ◌^◌, None, IsSome, IfSome};

use st_events::Token;
use st_hall::{Hall, Hand, Module};
use st_pool::Machines;
use std::alloc::Global;
use std::sync::{Arc, Wait};

/// How many turns a token is served for before it goes back on a run queue.
const SLICE: u32 = 32;

/// A hall whose tokens are served for up to 32 turns before they go back on a run queue: the machine is found once and stays
/// at hand, and the queues have less to do. Each turn is one of the hall's own, for the same token at the same moment.
///
/// A slice ends where the machine rests, and where a turn leaves a message or a woken token in the hand.
///
/// Ours: docs/DECISIONS.md, Services.
#[derive(Drop)]
pub struct Slices<M: Module, R: Wait + Drop> {
    hall: Arc<Hall<M, R>, Global>,
}

impl<M: Module, R: Wait + Drop> Slices<M, R> {
    /// Slices of this hall's machines.
    ///
    /// Ours: docs/DECISIONS.md, Services.
    pub fn new(hall: Arc<Hall<M, R>, Global>) -> Slices<M, R> {
        Slices { hall }
    }
}

/// Workers serve a slice as one turn: its answer is that of its last turn.
///
/// Ours: docs/DECISIONS.md, Services.
impl<M: Module, R: Wait + Drop> Machines for Slices<M, R> {
    type Content = M::Content;

    ghost served = { λ token now answer. IfSome answer (λ back. back ≡ token) };

    fn turn(&self, token: Token, now: u64, hand: &mut Hand<M::Content>) -> Option<Token> {
        match self.hall.find(token.machine) {
            Ok(machine) => slice(&machine, token, now, hand),
            // A message that is in the hand is delivered all the same.
            Err(_) => self.hall.turn(token, now, hand),
        }
    }
}

/// Serves a token for up to 32 turns, of whatever machines. What it answers is what one of the turns answered.
fn slice<M: Machines>(
    machines: &M,
    token: Token,
    now: u64,
    hand: &mut Hand<M::Content>,
) -> Option<Token>
    requires below { now < 2 ^ 63 }
    requires woken { hand.old.woken ≡ None }
    ensures served { M.served token now result }
    ensures returned { IfSome result (λ back. back ≡ token) }
    ensures carrying { IsSome hand.new.message → IsSome result }
{
    let mut answer = machines.turn(token, now, hand);
    for _ in 1..SLICE {
        if answer.is_none() || hand.message.is_some() || hand.woken.is_some() {
            break;
        }
        answer = machines.turn(token, now, hand);
    }
    answer
}
