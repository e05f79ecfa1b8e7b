//! From where a value comes.

use crate::Value;

/// From where a value comes.
#[derive(Drop)]
pub enum Operand {
    /// This value itself.
    Constant(Value),
    /// A register, by its number from 0 on, as it is now: in an update, after the updates before it. Nothing where there
    /// are not so many.
    Register(u32),
    /// A register as it was before the rule changed any; in a rule of a start, an argument of the start, by its number
    /// from 0 on. Nothing where there are not so many.
    Before(u32),
    /// The argument of the event's signal; where a state is entered, the number of the state that was left; in the last
    /// word, the reason; in a rule of a start nothing.
    Argument,
    /// The tag of the call that is handled; nothing where the event is no call. Manual: `from()`.
    Caller,
    /// The machine itself, where a call is handled: it is named in the call's tag. Nothing where the event is no call.
    Own,
}
