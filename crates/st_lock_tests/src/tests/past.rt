//! What was done before a row.
use super::row::Row;
use st_core::MachineId;

/// What was done before a row: the first of these rows, so many, over the machine of this id, which keeps its journal
/// or keeps none.
#[derive(Clone, Copy)]
pub struct Past<'a> {
    pub id: MachineId,
    pub keeps: bool,
    pub rows: &'a [Row],
    pub done: usize,
}
