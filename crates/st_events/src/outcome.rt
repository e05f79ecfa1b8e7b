//! What a callback answers to an event.

use crate::{Actions, SmallList, Tag};

/// Why a machine stops.
///
/// Manual: `stop/3`, where a reason is a term; here it is a number.
pub type Reason = u32;

/// Replies to requests, in the order in which they are sent. Up to four take no memory.
///
/// Manual: `reply_action()`.
pub type Replies<C> = SmallList<(Tag, C)>;

/// What `handle` answers: the state, the data and the actions that come of an event, or that the
/// machine ends.
///
/// Manual: `event_handler_result()`, `state_callback_result()`.
#[derive(Drop)]
pub enum Outcome<S, D, C> {
    /// The state and the data are these. Manual: `{next_state, ..}`.
    NextState(S, D, Actions<C>),
    /// The state stays, the data is this. Manual: `{keep_state, ..}`.
    KeepState(D, Actions<C>),
    /// Both stay. Manual: `{keep_state_and_data, ..}`.
    KeepStateAndData(Actions<C>),
    /// The state stays and is entered again, the data is this. Without enter calls it is as `KeepState`.
    /// Nothing that is postponed is retried. Manual: `{repeat_state, ..}`.
    RepeatState(D, Actions<C>),
    /// Both stay, and the state is entered again, as by `RepeatState`. Manual:
    /// `{repeat_state_and_data, ..}`.
    RepeatStateAndData(Actions<C>),
    /// The machine ends for a reason, with this data, or the old. Manual: `{stop, ..}`.
    Stop(Reason, Option<D>),
    /// The replies are sent, and then the machine ends as by `Stop`. Manual: `{stop_and_reply, ..}`.
    StopAndReply(Reason, Replies<C>, Option<D>),
}
