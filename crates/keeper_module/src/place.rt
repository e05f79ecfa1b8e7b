//! Where a connection belongs.

use st_events::MachineId;

/// Whose connection it is, and which of them.
///
/// Ours: the argument of a start.
#[derive(Clone, Copy)]
pub struct Place {
    /// Who opens and closes sockets: to whom messages go.
    pub owner: MachineId,
    /// The connection's number.
    pub number: u32,
}
