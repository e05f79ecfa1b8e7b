//! Who gives tokens to a pool.
ghost use Rattle.std.specs.Prelude.{◌≡◌, IfErr};

use crate::pool_state::PoolState;
use st_events::Token;
use st_wake::Wake;
use std::alloc::Global;
use std::sync::{Arc, Wait};

/// Gives tokens to a pool, from any thread. It may outlive the pool; then it refuses each token.
///
/// Ours: docs/DECISIONS.md, Pools.
#[derive(Drop)]
pub struct Scheduler {
    state: Arc<PoolState, Global>,
}

impl Scheduler {
    /// A scheduler of this pool.
    pub(crate) fn new(state: Arc<PoolState, Global>) -> Scheduler {
        Scheduler { state }
    }
}

impl Wake for Scheduler {
    fn wake<R: Wait>(&self, rt: &R, token: Token) -> Result<(), Token> {
        match self.state.schedule(rt, token) {
            Ok(()) => Ok(()),
            Err(refused) => Err(refused.0),
        }
    }
}
