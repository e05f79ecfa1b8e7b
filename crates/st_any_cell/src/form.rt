//! The two forms of a cell.

use crate::bare::Bare;
use st_cell::{Cell, Module};

/// A cell that keeps its journal, in a box, since it is the larger; or a machine alone.
#[derive(Drop)]
pub(crate) enum Form<M: Module> {
    Journaled(Box<Cell<M>>),
    Unjournaled(Bare<M>),
}
