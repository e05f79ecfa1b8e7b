//! Laws of entries as JSON. Each is shown once, and calling it does nothing.
ghost use Rattle.std.specs.Prelude.{ℕ, List};
ghost use Rattle.serde_json.specs.Read.{max_depth};
ghost use Rattle.st_journal.specs.declared.journal_entry.JournalEntry.{JournalEntry};
ghost use Rattle.st_json.specs.Entries.{entry_data};
ghost use Rattle.st_json.specs.Lines.{IsPlain, ArePlain};

use crate::ContentJson;
use st_cell::JournalEntry;

/// An entry has no float but in its contents, and nests little around them. So where contents have none, and nest no
/// deeper than 123, its line is the text of its JSON and reads back.
///
/// Ours: docs/DECISIONS.md, Journals.
pub fn an_entry_is_as_plain_as_its_contents<S, C, J: ContentJson<C>>(
    _contents: &J,
    _entry: &JournalEntry<S, C>,
)
    ensures { (contents : J) (names : S → List ℕ) (entry : JournalEntry S C) → ArePlain (J.json_is contents)
        → IsPlain max_depth (entry_data names (J.json_is contents) entry) }
{}
