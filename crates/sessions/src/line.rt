//! What a line of the input is.

use st_core::MOMENT_LIMIT;
use std::alloc::{AllocError, Global};

/// A line of the input.
#[derive(Drop)]
pub struct Line<'a> {
    /// The moment, if the line tells it.
    pub moment: Option<u64>,
    /// The line without the moment.
    pub text: &'a str,
    /// The words of the text.
    pub words: Vec<&'a str>,
}

/// The moment that a word tells, if it does. One at which no machine could be is none.
fn moment_of(word: &str) -> Option<u64> {
    let moment = word.strip_prefix('@')?.parse::<u64>().ok()?;
    if moment < MOMENT_LIMIT {
        Some(moment)
    } else {
        None
    }
}

/// The moment that a line begins with, if it does, and the rest of the line.
fn split_moment(line: &str) -> (Option<u64>, &str) {
    let (first, rest) = line.split_once(' ').unwrap_or((line, ""));
    match moment_of(first) {
        Some(moment) => (Some(moment), rest.trim()),
        None => (None, line),
    }
}

/// Reads a line.
pub fn read_line(alloc: Global, line: &str) -> Result<Line<'_>, AllocError> {
    let (moment, text) = split_moment(line.trim());
    let words = text.split_whitespace().collect(alloc)?;
    Ok(Line {
        moment,
        text,
        words,
    })
}
