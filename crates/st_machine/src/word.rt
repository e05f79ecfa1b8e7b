//! The words of a line of events.

use crate::page::Page;
use std::alloc::{AllocError, Global};

/// A word of a line of events.
#[derive(Clone, Copy)]
pub(crate) enum Word<'a> {
    /// One without quotes.
    Plain(&'a str),
    /// One in single quotes, without these.
    Text(&'a str),
}

impl<'a> Word<'a> {
    /// What the word says.
    pub(crate) fn text(self) -> &'a str {
        match self {
            Word::Plain(text) => text,
            Word::Text(text) => text,
        }
    }

    /// The word, where it stood without quotes; else a quote, which is no word.
    pub(crate) fn plain(self) -> &'a str {
        match self {
            Word::Plain(word) => word,
            Word::Text(_) => "'",
        }
    }

    /// The word as it stood in the line. It may find no memory.
    pub(crate) fn written(self, alloc: Global) -> Result<String, AllocError> {
        match self {
            Word::Plain(word) => String::from_str(alloc, word),
            Word::Text(text) => format!(in alloc; "'{text}'"),
        }
    }
}

/// The file that words begin with, if they do, and the other words. It has a dot or a slash in its name.
pub(crate) fn file_of<'a, 'b>(words: &'b [Word<'a>]) -> Option<(&'a str, &'b [Word<'a>])> {
    let (first, rest) = words.split_first()?;
    let file = first.plain();
    if file.contains(['.', '/']) {
        Some((file, rest))
    } else {
        None
    }
}

/// The first word of a text that begins with one, and what stands behind it; `None` where a quote has no end.
fn first_word(text: &str) -> Option<(Word<'_>, &str)> {
    if let Some(inner) = text.strip_prefix('\'') {
        let (word, rest) = inner.split_once('\'')?;
        return Some((Word::Text(word), rest));
    }
    match text.split_once([' ', '\t']) {
        Some((word, rest)) => Some((Word::Plain(word), rest)),
        None => Some((Word::Plain(text), "")),
    }
}

/// The words of a line, up to a comment. A quote without an end is told.
pub(crate) fn words_of<'a>(line: &'a str, page: &mut Page) -> Option<Vec<Word<'a>>> {
    let mut words = Vec::new(page.alloc);
    let mut rest = line.trim_start();
    // Each round takes a byte at least.
    for _ in 0..line.len() {
        if rest.is_empty() || rest.starts_with('#') {
            break;
        }
        let Some((word, behind)) = first_word(rest) else {
            page.fault("a text in single quotes has no end");
            return None;
        };
        let Ok(()) = words.push(word) else {
            page.failed = true;
            return None;
        };
        rest = behind.trim_start();
    }
    Some(words)
}
