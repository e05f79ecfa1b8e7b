//! JSON, laid out.

use std::alloc::AllocError;

/// Whether the text ends where an object or a list begins.
fn is_open(text: &str) -> bool {
    match text.as_bytes().last() {
        Some(b'{') => true,
        Some(b'[') => true,
        _ => false,
    }
}

/// Goes on to the next member or item, or to the end: to a line at a depth, or on the same line at depth 0.
pub(crate) fn push_next(text: &mut String, depth: usize, is_end: bool) -> Result<(), AllocError> {
    match (is_open(text.as_str()), is_end) {
        (true, true) => return Ok(()),
        (false, false) => text.push(',')?,
        _ => {}
    }
    text.push(if depth > 0 { '\n' } else { ' ' })?;
    for _ in 0..depth {
        text.push_str("  ")?;
    }
    Ok(())
}

/// Ends an object or a list.
pub(crate) fn push_end(text: &mut String, depth: usize, bracket: char) -> Result<(), AllocError> {
    push_next(text, depth, true)?;
    text.push(bracket)
}

/// Adds a text in quotes.
pub(crate) fn push_text(text: &mut String, held: &str) -> Result<(), AllocError> {
    text.push('"')?;
    for character in held.chars() {
        let number = u32::from(character);
        match character {
            '"' => text.push_str("\\\"")?,
            '\\' => text.push_str("\\\\")?,
            '\n' => text.push_str("\\n")?,
            other if number >= 32 => text.push(other)?,
            _ => write!(text, "\\u{number:04x}")?,
        }
    }
    text.push('"')
}

/// Goes on to the next member, of this key.
pub(crate) fn push_member(text: &mut String, depth: usize, key: &str) -> Result<(), AllocError> {
    push_next(text, depth, false)?;
    push_text(text, key)?;
    text.push_str(": ")
}

/// Adds a member of the same line that is a text.
pub(crate) fn push_named(text: &mut String, key: &str, held: &str) -> Result<(), AllocError> {
    push_member(text, 0, key)?;
    push_text(text, held)
}
