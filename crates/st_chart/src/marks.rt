//! Where the parts of a table stand in its description.

use st_events::PlainList;

/// Where a rule stands.
#[derive(Drop)]
pub struct Mark {
    /// The line, from 1 on.
    pub line: usize,
    /// The character in the line, from 1 on.
    pub column: usize,
    /// The key under which it stands, as `cast button`, `entry`, `after`, `start` or `initial`.
    pub key: String,
}

/// Where a state and its rules stand.
#[derive(Drop)]
pub struct RowMarks {
    /// Where the state's name stands.
    pub name: Mark,
    /// Its entries, in the table's order.
    pub entries: PlainList<Mark>,
    /// Its rules, in the table's order.
    pub rules: PlainList<Mark>,
}

/// Where the rules of a table stand. Each list is as long as the table's, and in its order.
#[derive(Drop)]
pub struct Marks {
    /// The rules of a start.
    pub start: PlainList<Mark>,
    /// The states.
    pub states: PlainList<RowMarks>,
    /// The rules of any state.
    pub any: PlainList<Mark>,
}
