//! Descriptions from files.

use crate::files::file_bytes;
use st_machine::Shelf;
use std::alloc::{AllocError, Global};
use std::io::ErrorKind;

/// Descriptions from files, by their paths.
#[derive(Drop)]
pub(crate) struct Files<'a> {
    pub(crate) rt: &'a HostRuntime,
}

impl Shelf for Files<'_> {
    fn description(&mut self, _alloc: Global, name: &str) -> Result<Option<Vec<u8>>, AllocError> {
        match file_bytes(self.rt, name) {
            Ok(bytes) => Ok(Some(bytes)),
            Err(error) if error.kind() == ErrorKind::OutOfMemory => Err(AllocError),
            Err(_error) => Ok(None),
        }
    }
}
