//! What a callback module answers to a start.

use crate::{Actions, Reason};

/// What `init` answers.
///
/// Manual: `init_result()`.
#[derive(Drop)]
pub enum Init<S, D, C> {
    /// The machine starts in this state, with this data and these actions.
    Ok(S, D, Actions<C>),
    /// No machine starts, for this reason.
    Stop(Reason),
    /// No machine starts.
    Ignore,
}
