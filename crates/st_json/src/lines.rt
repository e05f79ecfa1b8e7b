//! Entries as JSON, and as lines of JSON.
ghost use Rattle.std.specs.Prelude.{◌≡◌, IfOk, string_bytes};
ghost use Rattle.serde_json.specs.View.{view};
ghost use Rattle.st_json.specs.Entries.{entry_data};
ghost use Rattle.st_json.specs.Lines.{IsLineOf};

use crate::ContentJson;
use crate::writer::{Writer, Written};
use serde_json::Value;
use st_cell::JournalEntry;
use st_trace::StateNames;
use std::alloc::{AllocError, Global};

/// An entry as JSON: an object of its number, its source, its command and its answer. A struct is an object of its
/// fields, a variant its name, or else an object of its name and what it has, and a list or a tuple an array. States
/// have their names, and contents the form that is given.
///
/// Where there is no memory there is no value; the entry is only read.
///
/// Ours: docs/DECISIONS.md, Journals.
pub fn entry_json<S: Copy, C, N: StateNames<S>, J: ContentJson<C>>(
    alloc: Global,
    names: &N,
    contents: &J,
    entry: &JournalEntry<S, C>,
) -> Result<Value, AllocError>
    ensures { IfOk result (λ value. view value ≡ entry_data (N.name_is names.now) (J.json_is contents.now) entry.now) }
{
    entry.written(&Writer {
        alloc,
        names,
        contents,
    })
}

/// An entry as a line of JSON, with no space, that ends with a line feed.
///
/// Where there is no memory there is no line; the entry is only read.
///
/// Ours: docs/DECISIONS.md, Journals.
pub fn entry_json_line<S: Copy, C, N: StateNames<S>, J: ContentJson<C>>(
    alloc: Global,
    names: &N,
    contents: &J,
    entry: &JournalEntry<S, C>,
) -> Result<String, AllocError>
    ensures { IfOk result (λ line. IsLineOf (entry_data (N.name_is names.now) (J.json_is contents.now) entry.now) (string_bytes line)) }
{
    let value = entry_json(alloc, names, contents, entry)?;
    let mut line = value.to_string(alloc)?;
    line.push_str("\n")?;
    Ok(line)
}
