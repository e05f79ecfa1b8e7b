//! A hall's machines, as workers serve them.
ghost use Rattle.std.specs.Prelude.{◌≡◌, IfSome};

use crate::Hall;
use st_pool::{Hand, Machines};
use st_registry::{Module, Token};
use std::sync::Wait;

/// Workers serve a hall as it is.
///
/// Ours: docs/DECISIONS.md, Halls.
impl<M: Module, R: Wait + Drop> Machines for Hall<M, R> {
    type Content = M::Content;

    ghost served = { λ token now answer. IfSome answer (λ back. back ≡ token) };

    fn turn(&self, token: Token, now: u64, hand: &mut Hand<M::Content>) -> Option<Token> {
        Hall::turn(self, token, now, hand)
    }
}
