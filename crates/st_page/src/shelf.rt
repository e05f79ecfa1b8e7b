//! The descriptions that lines of events may name.

use st_machine::Shelf;
use std::alloc::{AllocError, Global};

/// No description: there are no files.
#[derive(Drop)]
pub(crate) struct NoFiles;

impl Shelf for NoFiles {
    fn description(&mut self, _alloc: Global, _name: &str) -> Result<Option<Vec<u8>>, AllocError> {
        Ok(None)
    }
}
