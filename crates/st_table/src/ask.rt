//! What a rule asks for.

use crate::{Expression, Operand, Raised, Say};
use st_events::Timer;

/// What a rule asks for: an action of the engine, with values that are computed. Manual: `action()`, `enter_action()`.
///
/// In an entry, `Postpone`, `Raise` and `Send` ask for nothing: an enter call has no event, and inserts and sends none. In
/// a rule that stops, all but `Reply` ask for nothing; at a start that begins no machine all do.
#[derive(Drop)]
pub enum Ask {
    /// A call is answered; by a value that is no tag nothing is asked for. Manual: `reply_action()`.
    Reply(Operand, Say),
    /// The event is postponed. Manual: `postpone()`, `transition_option()`.
    Postpone,
    /// An event is inserted, which is handled before all that was not handled yet. Manual: `action()`, the bullet on
    /// `next_event`.
    Raise(Raised, Say),
    /// A timer is set for so many milliseconds, 2^32 - 1 at most; a value that is no number stops it. Manual:
    /// `timeout_action()`.
    Set(Timer, Expression, Say),
    /// A timer is stopped. Manual: `timeout_cancel_action()`.
    Cancel(Timer),
    /// A timer's running time-out gets another signal. Manual: `timeout_update_action()`.
    Update(Timer, Say),
    /// A message is sent; by a value that is no machine nothing is asked for. Ours: docs/DECISIONS.md, Messages.
    Send(Operand, Say),
    /// Is accepted and has no effect. Manual: `hibernate()`, `transition_option()`.
    Hibernate,
}
