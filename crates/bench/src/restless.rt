//! Machines whose turns do nothing.
ghost use Rattle.std.specs.Prelude.{◌≡◌, IfSome};

use st_pool::{Hand, Machines, Token};

/// Machines that do nothing in a turn, and never rest.
#[derive(Drop)]
pub struct Restless;

impl Machines for Restless {
    type Content = u32;

    ghost served = { λ token now answer. IfSome answer (λ back. back ≡ token) };

    fn turn(&self, token: Token, _now: u64, _hand: &mut Hand<u32>) -> Option<Token> {
        Some(token)
    }
}
