//! What a callback asks for.

use crate::{Kind, MachineId, SmallList, Tag, Time, Timer};

/// One action of a callback.
///
/// Manual: `action()`.
#[derive(Drop)]
pub enum Action<C> {
    /// Answers a request. Manual: `reply_action()`.
    Reply(Tag, C),
    /// Says whether the event is postponed. Of several the last one decides. Manual: `postpone()`,
    /// `action()`.
    Postpone(bool),
    /// Inserts an event, which is handled before all that was not handled yet. One of kind call opens no
    /// request. Manual: `action()`, the bullet on `next_event`.
    NextEvent(Kind, C),
    /// Sets a timer for a time, or stops it; the content is that of the time-out's event. Of all that is
    /// asked of one timer, by this, `Cancel` and `Update`, the last one decides. Manual: `timeout_action()`,
    /// `action()`; ours: docs/DECISIONS.md, What is asked of one timer.
    Set(Timer, Time, C),
    /// Stops a timer. Manual: `timeout_cancel_action()`.
    Cancel(Timer),
    /// Gives a timer's running time-out this content, and leaves all else of it; where none runs, sets the
    /// timer for no time. Manual: `timeout_update_action()`.
    Update(Timer, C),
    /// Sends a message to a machine: it waits in its sender's outbox until it is taken out. Ours:
    /// docs/DECISIONS.md, Messages.
    Send(MachineId, C),
    /// Is accepted and has no effect. Manual: `hibernate()`; ours: docs/DECISIONS.md, Hibernation.
    Hibernate,
}

/// The actions of a callback, in the order in which they are done. Up to four take no memory.
///
/// Manual: `action()`.
pub type Actions<C> = SmallList<Action<C>>;
