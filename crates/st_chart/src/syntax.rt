//! What is said where a text is no JSON.

use crate::tree::Standing;
use crate::wording::quoted;
use std::alloc::{AllocError, Global};

fn is_blank(byte: u8) -> bool {
    matches!(byte, b' ' | b'\t' | b'\n' | b'\r')
}

/// The last byte before a place that is no blank, and where it stands.
fn before(bytes: &[u8], at: usize) -> (usize, u8) {
    let passed = bytes.get(..at).unwrap_or(&[]);
    for (place, byte) in passed.iter().enumerate().rev() {
        if !is_blank(*byte) {
            return (place, *byte);
        }
    }
    (at, b' ')
}

/// Where a fault stands: a comma or a colon that the reader passed already is before it.
pub(crate) fn place_of(bytes: &[u8], at: usize, standing: Standing) -> usize {
    match (standing, before(bytes, at)) {
        (Standing::Key | Standing::End, (comma, b',')) => comma,
        (Standing::End | Standing::List | Standing::Object, (colon, b':')) => colon,
        _ => at,
    }
}

/// What could stand there.
fn wanted(standing: Standing, before: u8) -> &'static str {
    match (standing, before) {
        (Standing::Deep, _) => "a value",
        (Standing::Beginning, _) => "an object",
        (Standing::End, _) => "the end of the text",
        (Standing::Key, _) => "\":\"",
        (Standing::Member, _) => "a value",
        (_, b',') if matches!(standing, Standing::List) => "a value",
        (Standing::List, b'[') => "a value or \"]\"",
        (Standing::List, _) => "\",\" or \"]\"",
        (Standing::Object, b',') => "a key",
        (Standing::Object, b'{') => "a key or \"}\"",
        (Standing::Object, _) => "\",\" or \"}\"",
    }
}

/// Whether a text that begins there would be in its place.
fn is_open(standing: Standing, before: u8) -> bool {
    match standing {
        Standing::Beginning | Standing::Member => true,
        Standing::List | Standing::Object => matches!(before, b',' | b'[' | b'{'),
        _ => false,
    }
}

/// Whether a byte ends a word, or the part of a text that is shown.
fn ends_word(byte: u8, is_text: bool) -> bool {
    if is_text {
        return matches!(byte, b'"' | b'\n');
    }
    is_blank(byte) || matches!(byte, b',' | b':' | b'{' | b'}' | b'[' | b']' | b'"')
}

/// The word that begins at a place: what is between quotes on the line, or what stands before a sign, or a sign.
fn word_at(text: &str, at: usize) -> &str {
    let rest = text.get(at..).unwrap_or("");
    let (word, is_text) = match rest.strip_prefix('"') {
        Some(inner) => (inner, true),
        None => (rest, false),
    };
    for (place, byte) in word.as_bytes().iter().enumerate() {
        if ends_word(*byte, is_text) {
            let least = if is_text { 0 } else { 1 };
            return word.get(..place.max(least)).unwrap_or(word);
        }
    }
    word
}

/// The words of a fault of JSON.
pub(crate) fn syntax_text(
    alloc: Global,
    text: &str,
    at: usize,
    standing: Standing,
) -> Result<String, AllocError> {
    if let Standing::Deep = standing {
        return String::from_str(alloc, "lists and objects nest more than 64 deep");
    }
    let before = before(text.as_bytes(), at).1;
    let wanted = wanted(standing, before);
    let word = word_at(text, at);
    if word.is_empty() && at >= text.len() {
        return format!(in alloc; "{wanted} is wanted here; there the text ends");
    }
    let word = quoted(alloc, word)?;
    if is_open(standing, before) && text.as_bytes().get(at) == Some(&b'"') {
        return format!(in alloc;
            "the text {word} has no end, or a character or an escape that JSON refuses"
        );
    }
    format!(in alloc; "{wanted} is wanted here; there stands {word}")
}
