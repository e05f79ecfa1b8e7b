//! What a callback answers where a state is entered.

use crate::{EnterActions, Reason, Replies};

/// What `enter` answers: the data and the actions that come of entering a state, or that the machine
/// ends. The state stays: an enter call cannot lead to another.
///
/// Manual: `state_enter_result()`, `state_callback_result()`.
#[derive(Drop)]
pub enum EnterOutcome<D, C> {
    /// The data is this. Manual: `{keep_state, ..}`.
    KeepState(D, EnterActions<C>),
    /// The data stays. Manual: `{keep_state_and_data, ..}`.
    KeepStateAndData(EnterActions<C>),
    /// The machine ends for a reason, with this data, or the old. Manual: `{stop, ..}`.
    Stop(Reason, Option<D>),
    /// The replies are sent, and then the machine ends as by `Stop`. Manual: `{stop_and_reply, ..}`.
    StopAndReply(Reason, Replies<C>, Option<D>),
}
