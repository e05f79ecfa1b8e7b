//! What a session says, line by line.

use std::alloc::{AllocError, Global};

/// Adds a text to a log, if it found memory.
pub fn add(log: &mut String, text: Result<String, AllocError>) -> Result<(), AllocError> {
    log.push_str(text?.as_str())
}

/// Adds a line to a log, behind the moment, if its text found memory.
pub fn tell(
    alloc: Global,
    now: u64,
    text: Result<String, AllocError>,
    log: &mut String,
) -> Result<(), AllocError> {
    let text = text?;
    add(log, format!(in alloc; "{now} {text}\n"))
}
