//! One state of a table.

use crate::Rule;
use st_events::PlainList;

/// One state's rules.
#[derive(Drop)]
pub struct StateRow {
    /// The entries: where the state is entered, the first whose guard holds is taken. Manual: `state_enter()`.
    pub entries: PlainList<Rule>,
    /// The rules of events: the first that fits is taken.
    pub rules: PlainList<Rule>,
}
