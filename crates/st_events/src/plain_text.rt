//! Texts that contracts see as their bytes.
ghost use Rattle.std.specs.Prelude.{◌≡◌, IfOk, string_bytes};

use std::alloc::{AllocError, Global};
use std::marker::Model;

/// A text of which contracts see the bytes alone, and no capacity.
///
/// Ours: docs/DECISIONS.md, Lists in values that definitions compare.
#[derive(Debug, Drop)]
pub struct PlainText {
    text: String,
}

impl Model for PlainText {
    ghost use Rattle.std.specs.Prelude.{List, ℕ, string_bytes};

    ghost Value = { List ℕ };

    ghost view = { λ held. string_bytes held.text };
}

impl PlainText {
    /// A copy of a text. It may find no memory.
    pub fn copied(alloc: Global, text: &str) -> Result<PlainText, AllocError>
        ensures { IfOk result (λ copy. copy ≡ text.now) }
    {
        Ok(PlainText {
            text: String::from_str(alloc, text)?,
        })
    }

    /// The text itself.
    pub fn as_str(&self) -> &str
        ensures { result.now ≡ self.now }
    {
        self.text.as_str()
    }

    /// The string that holds it, which takes no memory.
    pub fn into_string(self) -> String
        ensures { string_bytes result ≡ self }
    {
        let PlainText { text } = self;
        text
    }
}

impl From<String> for PlainText {
    ghost from_gives = { λ text held. held ≡ string_bytes text };

    fn from(text: String) -> PlainText {
        PlainText { text }
    }
}
