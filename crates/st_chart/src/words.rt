//! The words of an expression.

use crate::reading::Reading;
use std::alloc::AllocError;

/// What a byte begins.
#[derive(Clone, Copy, PartialEq, Eq)]
enum Class {
    Blank,
    /// A letter, a digit, `_` or a dot.
    Word,
    /// A part of a character above 127.
    High,
    Quote,
    /// A sign of a comparison.
    Comparison,
    /// A sign that stands alone.
    Sign,
}

fn class_of(byte: u8) -> Class {
    match byte {
        b' ' | b'\t' | b'\n' | b'\r' => Class::Blank,
        b'a'..=b'z' | b'A'..=b'Z' | b'0'..=b'9' | b'_' | b'.' => Class::Word,
        b'\'' => Class::Quote,
        b'=' | b'!' | b'<' | b'>' => Class::Comparison,
        128.. => Class::High,
        _ => Class::Sign,
    }
}

/// How many bytes at the beginning are of a class.
fn span(bytes: &[u8], class: Class) -> usize {
    for (place, byte) in bytes.iter().enumerate() {
        if class_of(*byte) != class {
            return place;
        }
    }
    bytes.len()
}

/// How long a text in single quotes is, with its quotes; all that is left, where the second is missing.
fn quoted_length(rest: &str) -> usize {
    match rest.get(1..).unwrap_or("").find('\'') {
        Some(inner) => inner.saturating_add(2),
        None => rest.len(),
    }
}

/// How long the word at the beginning is.
fn length_of(rest: &str) -> usize {
    let bytes = rest.as_bytes();
    let Some(first) = bytes.first() else {
        return 0;
    };
    match class_of(*first) {
        Class::Quote => quoted_length(rest),
        Class::Comparison => 2.min(span(bytes, Class::Comparison)),
        Class::Sign => 1,
        class => span(bytes, class),
    }
}

/// The words of a text, one after the other.
#[derive(Clone, Copy)]
pub(crate) struct Words<'t> {
    /// The word, or an empty one at the end.
    pub(crate) word: &'t str,
    /// Where it begins in the text.
    begin: usize,
    /// What is behind it.
    rest: &'t str,
    /// At which byte the text stands in the description, and whether it has no escape there.
    text_at: usize,
    is_plain: bool,
    /// Whether a fault was noted that is of the words' order.
    is_broken: bool,
}

impl<'t> Words<'t> {
    /// The words of a text that stands in the description, at its quote.
    pub(crate) fn new(reading: &Reading<'_>, text_at: usize, text: &'t str) -> Words<'t> {
        let mut words = Words {
            word: "",
            begin: 0,
            rest: text,
            text_at,
            is_plain: reading.places.is_plain(text_at, text),
            is_broken: false,
        };
        words.advance();
        words
    }

    /// Goes on to the next word.
    pub(crate) fn advance(&mut self) {
        let blanks = span(self.rest.as_bytes(), Class::Blank);
        let rest = self.rest.get(blanks..).unwrap_or("");
        let length = length_of(rest);
        self.begin = self
            .begin
            .saturating_add(self.word.len())
            .saturating_add(blanks);
        self.word = rest.get(..length).unwrap_or("");
        self.rest = rest.get(length..).unwrap_or("");
    }

    /// At which byte of the description the word stands, or its text where that has an escape.
    pub(crate) fn at(&self) -> usize {
        if self.is_plain {
            self.text_at.saturating_add(1).saturating_add(self.begin)
        } else {
            self.text_at
        }
    }

    /// Notes what is wanted in the place of this word, unless such a fault was noted, and ends the words.
    pub(crate) fn wrong(
        &mut self,
        reading: &mut Reading<'_>,
        text: &str,
    ) -> Result<(), AllocError> {
        let (at, word, was_broken) = (self.at(), self.word, self.is_broken);
        self.is_broken = true;
        self.word = "";
        self.rest = "";
        if was_broken {
            return Ok(());
        }
        reading.stands(at, text, word)
    }
}
