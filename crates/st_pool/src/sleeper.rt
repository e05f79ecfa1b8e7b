//! Where one worker sleeps.
use crossbeam_utils::sync::Unparker;
use std::sync::atomic::{AtomicBool, AtomicU64, Ordering};

/// Where one worker of a pool sleeps, and how many tokens it leaves to the others.
///
/// A worker announces here that it is about to sleep; who takes the announcement back is the one that wakes it.
#[derive(Drop)]
pub struct Sleeper {
    asleep: AtomicBool,
    unparker: Unparker,
    left: AtomicU64,
}

impl Sleeper {
    /// Its worker is awake, and leaves no token.
    pub fn new(unparker: Unparker) -> Sleeper {
        Sleeper {
            asleep: AtomicBool::new(false),
            unparker,
            left: AtomicU64::new(0),
        }
    }

    /// The worker is about to sleep. It calls this before its last look.
    pub fn announce(&self) {
        self.asleep.store(true, Ordering::SeqCst);
    }

    /// Takes the announcement back. `true`: it stood.
    pub fn recall(&self) -> bool {
        self.asleep.swap(false, Ordering::SeqCst)
    }

    /// Wakes the worker, if its announcement stands. `true`: this call took it back.
    pub fn wake(&self) -> bool {
        if self.asleep.load(Ordering::SeqCst) && self.recall() {
            self.unparker.unpark();
            return true;
        }
        false
    }

    /// Wakes the worker whether or not it sleeps; where it does not, its next sleep ends at once.
    pub fn wake_anyway(&self) {
        self.unparker.unpark();
    }

    /// The worker leaves one token more on its own run queue while it serves another.
    pub fn leave_one(&self) {
        self.left.fetch_add(1, Ordering::SeqCst);
    }

    /// One of them was taken. Who steals may be quicker than who leaves: then the count wraps until the other comes.
    pub fn take_one(&self) {
        self.left.fetch_sub(1, Ordering::SeqCst);
    }

    /// Whether it leaves any, as far as all have counted.
    pub fn is_any_left(&self) -> bool {
        self.left.load(Ordering::SeqCst) != 0
    }
}
