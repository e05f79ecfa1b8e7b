//! A callback that was made.

use st_events::{Kind, Reason};

/// One callback that was made, with what it was given.
///
/// Manual: Callback Functions.
#[derive(Clone, Copy, Debug, PartialEq, Eq)]
pub enum Call<S> {
    /// `handle`, with the event of this number and kind, in this state.
    Handle { number: u64, kind: Kind, state: S },
    /// `enter`, with the state that was left and the one that is entered.
    Enter { old: S, state: S },
    /// `terminate`, with the reason and the state; the word is what it answered.
    Terminate { reason: Reason, state: S, word: u32 },
}
