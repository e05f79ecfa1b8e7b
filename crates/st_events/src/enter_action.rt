//! What a callback asks for where a state is entered.

use crate::{SmallList, Tag, Time, Timer};

/// One action of an enter call. An enter call cannot postpone its event, for it has none, nor insert
/// events.
///
/// Manual: `enter_action()`.
#[derive(Drop)]
pub enum EnterAction<C> {
    /// Answers a request. Manual: `reply_action()`.
    Reply(Tag, C),
    /// Sets a timer for a time, or stops it; the content is that of the time-out's event. Of all that is
    /// asked of one timer, by this, `Cancel` and `Update`, the last one decides. Manual: `timeout_action()`,
    /// `enter_action()`; ours: docs/DECISIONS.md, What is asked of one timer.
    Set(Timer, Time, C),
    /// Stops a timer. Manual: `timeout_cancel_action()`.
    Cancel(Timer),
    /// Gives a timer's running time-out this content, and leaves all else of it; where none runs, sets the
    /// timer for no time. Manual: `timeout_update_action()`.
    Update(Timer, C),
    /// Is accepted and has no effect. Manual: `hibernate()`; ours: docs/DECISIONS.md, Hibernation.
    Hibernate,
}

/// The actions of an enter call, in the order in which they are done. Up to four take no memory.
///
/// Manual: `enter_action()`.
pub type EnterActions<C> = SmallList<EnterAction<C>>;
