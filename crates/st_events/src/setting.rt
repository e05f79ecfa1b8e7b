//! What is asked of timers.

use crate::{Asked, SmallList, Timer};

/// A timer, and what is asked of it. It has no number yet.
///
/// Manual: `timeout_action()`.
#[derive(Drop)]
pub struct Setting<C> {
    /// Which timer.
    pub timer: Timer,
    /// What is asked of it.
    pub asked: Asked<C>,
}

/// What is asked of timers, in the order in which it is done. Up to four take no memory.
///
/// Manual: `timeout_action()`.
pub type Settings<C> = SmallList<Setting<C>>;
