//! Adding to lists.

use crate::PlainList;
use std::alloc::AllocError;

/// Adds an element to the end of a list.
pub(crate) fn add_to<T: Drop>(list: &mut PlainList<T>, element: T) -> Result<(), AllocError> {
    match list.push(element) {
        Ok(()) => Ok(()),
        Err(_) => Err(AllocError),
    }
}
