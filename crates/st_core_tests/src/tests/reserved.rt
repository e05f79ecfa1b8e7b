//! Places for what a test gathers.
use super::host::{Host, got};
use std::alloc::Global;
use std::process::Abort;

/// An empty vector with places reserved. Where memory was refused, it is asked for again.
pub fn with_reserved<T: Drop>(rt: &Host<impl Abort>, alloc: Global, count: usize) -> Vec<T> {
    match Vec::with_capacity(alloc, count) {
        Ok(elements) => elements,
        Err(_) => {
            rt.retry();
            got(
                rt,
                "one allocation alone is refused",
                Vec::with_capacity(alloc, count),
            )
        }
    }
}
