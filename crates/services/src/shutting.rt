//! How a service ends.
use st_service::{Module, Observer, Runtime, Service};
use std::alloc::AllocError;
use std::rt::Clock;

/// Shuts a service down, and answers how many of its machines were stopped.
pub fn stop<M: Module, R: Runtime + Clock, O: Observer<M> + Drop>(
    mut service: Service<M, R, O>,
) -> Result<u64, AllocError>
where
    M::Content: Send + 'static,
{
    let end = service.shut_down(7);
    drop(service);
    Ok(end?.stopped)
}
