//! Where a rule leads.

use crate::{Expression, Place};

/// Where a rule leads. Manual: `state_callback_result()`.
#[derive(Drop)]
pub enum Target {
    /// Nowhere: the state stays. At a start: no machine starts, and the start is ignored. Manual: `keep_state`; at a
    /// start `ignore`.
    Keep,
    /// To this state, which may be the same one; the machine counts that as no change. At a start: it begins there. In an
    /// entry this is as `Keep`. Manual: `next_state`.
    Next(Place),
    /// The state stays and is entered again. In an entry, and at a start, this is as `Keep`. Manual: `repeat_state`.
    Repeat,
    /// The machine ends, for this reason: the number of the expression, or 2^32 - 1 where it is greater. At a start no
    /// machine starts. Manual: `stop`, `stop_and_reply`.
    Stop(Expression),
}
