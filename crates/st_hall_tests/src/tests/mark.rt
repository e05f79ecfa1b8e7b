//! A mark that threads share.
use std::alloc::{AllocError, Global};
use std::sync::Arc;
use std::sync::atomic::{AtomicU64, Ordering};
use std::thread;

/// How often one looks before one gives up waiting.
const LOOKS: u32 = 10_000_000;

/// A mark that some wait for and some make. Who is patient lets other threads run after each look, so that on a busy
/// machine it does not give up before those had their time.
#[derive(Drop)]
pub struct Mark {
    made: AtomicU64,
    gave_up: AtomicU64,
    is_patient: bool,
}

impl Mark {
    /// It was not made yet.
    pub fn new(alloc: Global, is_patient: bool) -> Result<Arc<Mark>, AllocError> {
        let mark = Mark {
            made: AtomicU64::new(0),
            gave_up: AtomicU64::new(0),
            is_patient,
        };
        Ok(Arc::new(alloc, mark)?)
    }

    /// Makes the mark.
    pub fn make(&self) {
        self.made.store(1, Ordering::SeqCst);
    }

    /// How often somebody waited for it in vain.
    pub fn gave_up(&self) -> u64 {
        self.gave_up.load(Ordering::SeqCst)
    }

    /// Waits until the mark was made, or gives up.
    pub fn wait(&self) {
        for look in 0..LOOKS {
            if self.made.load(Ordering::SeqCst) != 0 {
                return;
            }
            if self.is_patient || look % 10_000 == 9_999 {
                thread::yield_now();
            }
        }
        self.gave_up.fetch_add(1, Ordering::SeqCst);
    }
}
