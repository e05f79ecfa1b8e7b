//! What a worker asks and tells round each turn.
ghost use Rattle.std.specs.Prelude.{ℕ, ◌<◌, ◌^◌};

use st_events::Token;

/// The hooks of a pool's workers: a clock, and who is told of each turn. They are called outside all locks, and a call
/// may wait; its worker waits with it.
///
/// Ours: docs/DECISIONS.md, Workers.
pub trait Gate {
    /// What moment a turn may have. `now` alone promises it, so a worker makes no turn at a moment of its own.
    ghost moment: { ℕ → Type 0 };

    /// The moment of a turn, in milliseconds, below 2^63.
    fn now(&self) -> u64
        ensures below { result < 2 ^ 63 }
        ensures moment { moment result };

    /// A worker is about to serve a token.
    fn before(&self, worker: usize, token: Token);

    /// The worker has served it.
    fn after(&self, worker: usize, token: Token);
}
