//! The desk of a courier. Each call of a port stands here, once: it is proved anew in each function that makes it.
use super::carrier::Carrier;
use super::courier::Courier;
use super::patience::Threads;
use st_lock::Look;
use st_service::{Nobody, Refusal, ServicePort, Unposted};

/// A port of a courier.
#[derive(Drop)]
pub struct Desk<R: Threads> {
    pub threads: R,
    pub port: ServicePort<Courier, R, Nobody>,
}

impl<R: Threads> Carrier for Desk<R> {
    fn cast(&mut self, number: u32) -> Result<u64, Unposted<u32>> {
        self.port.cast(number)
    }

    fn try_look(&mut self) -> Result<Look<u32, u64>, Refusal> {
        self.port.look()
    }

    fn came(&self) -> u32 {
        self.port.machine().state(&self.threads)
    }
}
