//! A machine as data.

use crate::{Expression, Rule, StateRow, Value};
use st_events::PlainList;

/// A machine as data. States, symbols and registers are numbers; names stand outside.
///
/// Any table is a module's: a register, a state or a timer that is named and is not there is no fault. A value of it is
/// nothing, an update of it changes nothing, and a state has no rules.
#[derive(Drop)]
pub struct Table {
    /// The registers at first.
    pub registers: PlainList<Value>,
    /// The rules of a start: the first whose guard holds is taken. If there is none, the start is ignored. Manual:
    /// `Module:init/1`.
    pub start: PlainList<Rule>,
    /// Whether there are enter calls. Manual: `state_enter()`.
    pub enters: bool,
    /// The states, by number from 0 on.
    pub states: PlainList<StateRow>,
    /// The rules of events in any state, which come after the state's own.
    pub any: PlainList<Rule>,
    /// The last word: the number of the expression, or 2^32 - 1 where it is greater. Manual: `Module:terminate/3`.
    pub last: Expression,
}
