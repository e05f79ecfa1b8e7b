//! What a machine is started with.

use st_events::PlainList;
use st_table::Value;

/// What a machine is started with.
#[derive(Drop)]
pub(crate) struct Given {
    /// The arguments.
    pub(crate) values: PlainList<Value>,
    /// The arguments as they stood in the line.
    pub(crate) texts: Vec<String>,
}
