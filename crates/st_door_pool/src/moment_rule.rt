//! What holds of a moment that threads share.
ghost use Rattle.std.specs.Prelude.{◌<◌, ◌^◌};

use std::sync::atomic::Rule;

/// A word that threads share is a moment, in milliseconds, below 2^63.
pub(crate) struct MomentRule;

impl Rule for MomentRule {
    ghost invariant = { λ n. n < 2 ^ 63 };
}
