//! Who a machine is.

/// A machine's id: its place among the machines that whoever starts it keeps, and how many had been
/// started when it was, itself included. A place is used again, a serial never.
///
/// Whoever starts a machine picks its id. No two may share one: a request's tag names its machine by it.
///
/// Ours: docs/DECISIONS.md, Ids.
#[derive(Clone, Copy, Debug, PartialEq, Eq, Hash)]
pub struct MachineId {
    /// The place.
    pub slot: usize,
    /// How many machines had been started when it was.
    pub serial: u64,
}
