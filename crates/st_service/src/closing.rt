//! Whether a service is closing: shutting down, or dropped.
use std::alloc::{AllocError, Global};
use std::sync::Arc;
use std::sync::atomic::{AtomicBool, Ordering};

/// Whether a service is closing, since it is shut down or was dropped: each part of it has one. Whoever tries again for want
/// of memory gives up then.
#[derive(Drop)]
pub(crate) struct Closing {
    is_closing: Arc<AtomicBool, Global>,
}

impl Closing {
    /// It is not closing.
    pub(crate) fn new(alloc: Global) -> Result<Closing, AllocError> {
        let is_closing = Arc::new(alloc, AtomicBool::new(false))?;
        Ok(Closing { is_closing })
    }

    /// The same, for another part.
    pub(crate) fn share(&self) -> Result<Closing, AllocError> {
        let is_closing = Arc::try_clone(&self.is_closing)?;
        Ok(Closing { is_closing })
    }

    /// It is closing from now on.
    pub(crate) fn begin(&self) {
        self.is_closing.store(true, Ordering::SeqCst);
    }

    /// Whether it is.
    pub(crate) fn has_begun(&self) -> bool {
        self.is_closing.load(Ordering::SeqCst)
    }
}
