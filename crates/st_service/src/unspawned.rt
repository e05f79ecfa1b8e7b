//! Why a machine was not started.

use st_hall::Refused;

/// Why a service started no machine. Either way the module comes back.
///
/// Ours: docs/DECISIONS.md, Services.
#[derive(Debug, PartialEq, Eq, Drop)]
pub enum Unspawned<M> {
    /// The service is shutting down.
    Closed(M),
    /// The start was refused, as `Hall::start` is.
    Refused(Refused<M>),
}
