//! Words of faults.

use crate::Names;
use std::alloc::{AllocError, Global};

/// How many names of a list are shown.
const MOST_SHOWN: usize = 8;

/// How many characters of a name are shown.
const MOST_CHARACTERS: usize = 64;

/// Whether a character does not show as itself: it steers a terminal, or the order of what is shown.
fn is_hidden(character: char) -> bool {
    character.is_control()
        || matches!(
            character,
            '\u{200b}'..='\u{200f}' | '\u{2028}'..='\u{202e}' | '\u{2060}'..='\u{2069}' | '\u{feff}'
        )
}

/// Adds a name in quotes. A long one is cut, and a character that does not show is a question mark.
fn push_quoted(text: &mut String, name: &str) -> Result<(), AllocError> {
    text.push('"')?;
    for (place, character) in name.chars().enumerate() {
        if place == MOST_CHARACTERS {
            text.push_str("..")?;
            break;
        }
        text.push(if is_hidden(character) { '?' } else { character })?;
    }
    text.push('"')
}

/// A name in quotes.
pub(crate) fn quoted(alloc: Global, name: &str) -> Result<String, AllocError> {
    let mut text = String::new(alloc);
    push_quoted(&mut text, name)?;
    Ok(text)
}

/// Adds a name to a list.
fn push_listed(text: &mut String, name: &str) -> Result<(), AllocError> {
    if !text.is_empty() {
        text.push_str(", ")?;
    }
    push_quoted(text, name)
}

/// Writes the names that there are.
fn write_names(text: &mut String, names: &Names) -> Result<(), AllocError> {
    let count = names.len();
    for place in 0..count.min(MOST_SHOWN) {
        push_listed(text, names.name(place as u32))?;
    }
    if count <= MOST_SHOWN {
        return Ok(());
    }
    let more = count - MOST_SHOWN;
    write!(text, " .. and {more} more")
}

/// What stands before names, by how many there are.
fn before_names(count: usize) -> &'static str {
    match count {
        0 => "there is none",
        1 => "there is ",
        _ => "there are ",
    }
}

/// The names that there are: `there are "open", "locked"`.
pub(crate) fn listed_names(alloc: Global, names: &Names) -> Result<String, AllocError> {
    let mut text = String::new(alloc);
    write_names(&mut text, names)?;
    let before = before_names(names.len());
    format!(in alloc; "{before}{text}")
}

/// Words that are parted by blanks, as a list: `"guard", "target"`.
pub(crate) fn listed_words(alloc: Global, words: &str) -> Result<String, AllocError> {
    let mut text = String::new(alloc);
    for word in words.split(' ') {
        push_listed(&mut text, word)?;
    }
    Ok(text)
}
