//! What comes of hiring a clerk.
use st_service::{MachineId, Refusal};

/// What comes of hiring a clerk.
#[derive(Debug, PartialEq, Drop)]
pub enum Hiring {
    /// He runs, has this id, and a hatch.
    Runs(MachineId),
    /// No clerk runs.
    Nobody,
    /// The service is shutting down.
    Closed,
    /// The start was refused.
    Refused(Refusal),
}
