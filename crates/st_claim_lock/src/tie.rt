//! What may be claimed of the value under a lock.

/// What claims there are of the values under a lock.
pub trait Tie<T, V> {
    // Whether this value is as this claim says.
    ghost fits: { T → V → Type 0 };
    // The claim with which a newcomer begins.
    ghost first: { V };
}

/// A claim, which a call of `give` picks: its holder has it from then on.
pub trait Claimed<V> {
    ghost claim: { V };
}
