//! What a refused put gives back.
use st_events::Token;

/// A run queue took no token for want of memory, and gives it back.
#[derive(Clone, Copy, Debug, PartialEq, Eq)]
pub struct PutRefused(pub Token);
