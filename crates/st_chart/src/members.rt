//! The members that an object may have.

use crate::reading::Reading;
use crate::tree::{Node, Shape};
use crate::wording::listed_words;
use std::alloc::AllocError;

/// Whether a word is among words that are parted by blanks.
pub(crate) fn has_word(words: &str, word: &str) -> bool {
    words.split(' ').any(|one| one == word)
}

/// Whether a member of its key stands before it. If so, a fault is noted.
pub(crate) fn is_double(
    reading: &mut Reading<'_>,
    object: &Node<'_>,
    part: &Node<'_>,
) -> Result<bool, AllocError> {
    match object.member(part.key) {
        Some(first) if first.key_at != part.key_at => {
            reading.double(part.key_at, part.key, first.key_at)?;
            Ok(true)
        }
        _ => Ok(false),
    }
}

/// Notes a member that an object cannot have.
fn stray(
    reading: &mut Reading<'_>,
    part: &Node<'_>,
    what: &str,
    words: &str,
) -> Result<(), AllocError> {
    let listed = listed_words(reading.alloc, words)?;
    let after = format!(in reading.alloc; "; there could be {listed}")?;
    reading.wrong_name(part.key_at, what, part.key, after.as_str())
}

/// Whether a value is an object. If not, a fault is noted; so it is for each member that stands a second time, or that is
/// none of some.
pub(crate) fn is_object_of(
    reading: &mut Reading<'_>,
    object: &Node<'_>,
    what: &str,
    words: &str,
) -> Result<bool, AllocError> {
    let (Shape::Object) = object.shape else {
        reading.wanted(object, "an object is wanted here")?;
        return Ok(false);
    };
    for part in &object.parts {
        if reading.faults.is_full() {
            break;
        }
        if has_word(words, part.key) {
            is_double(reading, object, part)?;
        } else {
            stray(reading, part, what, words)?;
        }
    }
    Ok(true)
}

/// Whether a member says `true`. Where it says neither that nor `false`, a fault is noted.
pub(crate) fn is_set(
    reading: &mut Reading<'_>,
    object: &Node<'_>,
    key: &str,
) -> Result<bool, AllocError> {
    match object.member(key) {
        None => Ok(false),
        Some(part) => match part.shape {
            Shape::True => Ok(true),
            Shape::False => Ok(false),
            _ => {
                reading.wanted(part, "true or false is wanted here")?;
                Ok(false)
            }
        },
    }
}

/// Passes a description.
pub(crate) fn description(reading: &mut Reading<'_>, object: &Node<'_>) -> Result<(), AllocError> {
    match object.member("description") {
        Some(part) => match part.shape {
            Shape::Text => Ok(()),
            _ => reading.wanted(part, "a text is wanted here"),
        },
        None => Ok(()),
    }
}
