//! What a holder knows of the value under the lock. It exists in proofs alone.

/// What a holder claims, and, while it has the value out, the value as it was taken. No value of this type is made.
pub struct Hold<T, V> {
    pub claim: V,
    pub out: Option<T>,
}
