//! A description that was read.

use crate::{Marks, Vocabulary};
use st_table::Table;
use std::sync::Arc;

/// A description that was read: what the machine does, by numbers, the names of these, and where each rule stands.
#[derive(Drop)]
pub struct Chart {
    /// The machine's name, if the description gives one.
    pub id: Option<String>,
    /// What the machine does.
    pub table: Arc<Table>,
    /// The names of the table's numbers.
    pub names: Vocabulary,
    /// Where the table's rules stand.
    pub marks: Marks,
}
