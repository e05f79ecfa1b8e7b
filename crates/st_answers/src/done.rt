//! How a start or a turn ended.

use st_events::Reason;

/// How a start or a turn ended.
///
/// Manual: `transition_option()`, `stop/3`.
#[derive(Clone, Copy, Debug, PartialEq, Eq)]
pub enum Done {
    /// The machine has started.
    Started,
    /// The event is finished.
    Finished,
    /// The event is postponed.
    PutOff,
    /// The machine has ended for a reason, with the word that `terminate` answered.
    Ended(Reason, u32),
}
