//! A request with its label.

/// A request that was sent, and the label that its answer comes with.
///
/// Manual: `request_id_collection()`.
#[derive(Drop)]
pub struct Sent<Q, L> {
    /// The request.
    pub request: Q,
    /// Its label.
    pub label: L,
}
