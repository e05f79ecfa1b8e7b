//! What is to hold at a row.
use std::process::Abort;

/// Ends the test with this word and the row's number, from 0 on, where the fact does not hold.
pub fn shows(rt: &impl Abort, row: usize, word: &str, fact: bool) {
    assert!(rt; fact, "row {row}: {word}");
}
