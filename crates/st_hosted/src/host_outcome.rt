//! What a host answers to an event.

use crate::Payload;
use st_events::{Action, PlainList, Reason, Tag};

/// What a host answers to an event, as `handle` does: an `Outcome` whose lists take no place where they are empty, so
/// that it costs little to hand it on.
///
/// Manual: `event_handler_result()`, `state_callback_result()`.
#[derive(Drop)]
pub enum HostOutcome {
    /// The state and the data are these. Manual: `{next_state, ..}`.
    NextState(u64, u64, PlainList<Action<Payload>>),
    /// The state stays, the data is this. Manual: `{keep_state, ..}`.
    KeepState(u64, PlainList<Action<Payload>>),
    /// Both stay. Manual: `{keep_state_and_data, ..}`.
    KeepStateAndData(PlainList<Action<Payload>>),
    /// The state stays and is entered again, the data is this. Manual: `{repeat_state, ..}`.
    RepeatState(u64, PlainList<Action<Payload>>),
    /// Both stay, and the state is entered again. Manual: `{repeat_state_and_data, ..}`.
    RepeatStateAndData(PlainList<Action<Payload>>),
    /// The machine ends for a reason, with this data, or the old. Manual: `{stop, ..}`.
    Stop(Reason, Option<u64>),
    /// The replies are sent, and then the machine ends as by `Stop`. Manual: `{stop_and_reply, ..}`.
    StopAndReply(Reason, PlainList<(Tag, Payload)>, Option<u64>),
}
