//! One machine, as workers serve it.
ghost use Rattle.std.specs.Prelude.{◌≡◌, IfSome};

use super::plain::Plain;
use st_lock::{Machine, Next, Refusal};
use st_pool::{Hand, Machines, Token};
use std::sync::{Arc, Wait};

/// A machine that stands in no registry.
#[derive(Drop)]
pub struct Sole<R: Wait + Drop> {
    pub rt: R,
    pub machine: Arc<Machine<Plain>>,
}

impl<R: Wait + Drop> Machines for Sole<R> {
    type Content = u32;

    ghost served = { λ token now answer. IfSome answer (λ back. back ≡ token) };

    fn turn(&self, token: Token, now: u64, hand: &mut Hand<u32>) -> Option<Token> {
        if hand.message.is_some() {
            return Some(token);
        }
        match self.machine.turn(&self.rt, token, now) {
            Ok(Next::Again(_)) => Some(token),
            Ok(Next::Rest) => None,
            Err(refused) if refused.refusal == Refusal::Exhausted => Some(token),
            Err(_) => None,
        }
    }
}
