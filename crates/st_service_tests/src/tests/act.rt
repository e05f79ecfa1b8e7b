//! What is done at a house of clerks.
use super::hiring::Hiring;
use super::left::Left;
use super::part::Part;
use super::row::Row;
use crate::Order;
use st_service::MachineId;

/// What is done at a house of clerks, and what is to come of it. Clerks are told apart by their places, in the order in which
/// they were hired.
#[derive(Drop)]
pub enum Act {
    /// A clerk is hired under a name, if one is given, who bounces to this machine: what comes of it.
    Hires(Option<&'static str>, MachineId, Hiring),
    /// So many clerks are hired who bounce to nobody. Each runs, and these rows are played at his hatch before the next one is
    /// hired.
    HiresEach(usize, &'static [Row]),
    /// Rows are played.
    Plays(Part),
    /// A machine is waited for until no event waits at it. That none does within some seconds is tested.
    AwaitsServed(MachineId),
    /// A name is that of this machine.
    IsNamed(&'static str, MachineId),
    /// There are so many clerks.
    Counts(usize),
    /// The service is shut down for a reason, and leaves this; each message that is on its way is this one, where one is given.
    ShutsDown(u32, Left, Option<(MachineId, Order)>),
}
