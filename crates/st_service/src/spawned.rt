//! What comes of a start under a service.

use crate::{Observer, ServicePort};
use st_hall::{MachineId, Module, Reason};
use std::rt::Clock;
use std::sync::Wait;

/// What comes of a start under a service.
///
/// Manual: `start_ret()`, `init_result()`.
#[derive(Drop)]
pub enum Spawned<M: Module, R: Wait + Clock + Drop, O: Observer<M> + Drop> {
    /// There is a machine of this id, and workers serve it. The port is the first one that is opened on it; where there was
    /// no memory for that, there is none, and `Service::port` opens one.
    Running(MachineId, Option<ServicePort<M, R, O>>),
    /// No machine: `init` answered that this start is to be ignored. The module is let go.
    Ignored,
    /// No machine: `init` stopped for this reason. The module is let go.
    Stopped(Reason),
}
