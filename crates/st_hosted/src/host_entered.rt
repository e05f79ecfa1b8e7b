//! What a host answers where a state is entered.

use crate::Payload;
use st_events::{EnterAction, PlainList, Reason, Tag};

/// What a host answers where a state is entered, as `enter` does: an `EnterOutcome` whose lists take no place where
/// they are empty.
///
/// Manual: `state_enter_result()`, `state_callback_result()`.
#[derive(Drop)]
pub enum HostEntered {
    /// The data is this. Manual: `{keep_state, ..}`.
    KeepState(u64, PlainList<EnterAction<Payload>>),
    /// The data stays. Manual: `{keep_state_and_data, ..}`.
    KeepStateAndData(PlainList<EnterAction<Payload>>),
    /// The machine ends for a reason, with this data, or the old. Manual: `{stop, ..}`.
    Stop(Reason, Option<u64>),
    /// The replies are sent, and then the machine ends as by `Stop`. Manual: `{stop_and_reply, ..}`.
    StopAndReply(Reason, PlainList<(Tag, Payload)>, Option<u64>),
}
