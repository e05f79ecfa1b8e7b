//! What is at hand while a rule is taken.

use crate::seen::Seen;
use st_events::Tag;

/// What is at hand while a rule is taken, beside the registers.
#[derive(Clone, Copy)]
pub(crate) struct AtHand<'a> {
    /// The tag, where the event is a call.
    pub(crate) tag: Option<Tag>,
    /// The argument: of the event's signal; where a state is entered, the number of the state that was left; at the end,
    /// the reason; at a start nothing.
    pub(crate) argument: Seen<'a>,
}
