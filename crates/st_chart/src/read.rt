//! A description from bytes.

use crate::draft::Draft;
use crate::lists::add_to;
use crate::machine::machine;
use crate::places::spot_in;
use crate::reading::Reading;
use crate::syntax::{place_of, syntax_text};
use crate::tree::{Broken, Node, Standing, tree_of};
use crate::{Chart, Fault, Vocabulary};
use json::Scratch;
use st_events::PlainList;
use std::alloc::{AllocError, Global};
use std::sync::Arc;

/// How many bytes a description has at most.
const MOST_BYTES: usize = 1_048_576;

/// Why a description was not read.
#[derive(Drop)]
pub enum Unread {
    /// There is no memory.
    Memory,
    /// It has faults: the first twenty, in the order in which they stand.
    Faults(PlainList<Fault>),
}

impl From<AllocError> for Unread {
    fn from(_cause: AllocError) -> Unread {
        Unread::Memory
    }
}

/// Why a description was not read that has one fault.
fn not_read(alloc: Global, bytes: &[u8], at: usize, text: String) -> Unread {
    let spot = spot_in(bytes, at);
    let mut faults = PlainList::new(alloc);
    let fault = Fault {
        line: spot.line,
        column: spot.column,
        text,
    };
    match add_to(&mut faults, fault) {
        Ok(()) => Unread::Faults(faults),
        Err(_) => Unread::Memory,
    }
}

/// The same, where the words are to be copied.
fn not_read_for(alloc: Global, bytes: &[u8], at: usize, text: &str) -> Unread {
    match String::from_str(alloc, text) {
        Ok(text) => not_read(alloc, bytes, at, text),
        Err(_) => Unread::Memory,
    }
}

/// Why a text that is no JSON was not read.
fn no_tree(alloc: Global, text: &str, at: usize, standing: Standing) -> Unread {
    let at = place_of(text.as_bytes(), at, standing);
    match syntax_text(alloc, text, at, standing) {
        Ok(words) => not_read(alloc, text.as_bytes(), at, words),
        Err(_) => Unread::Memory,
    }
}

/// The faults that were noted, as the reason why a description was not read.
fn refused(alloc: Global, reading: Reading<'_>) -> Unread {
    match reading.told(alloc) {
        Ok(faults) => Unread::Faults(faults),
        Err(_) => Unread::Memory,
    }
}

/// The description, of which no fault was noted.
fn complete(alloc: Global, names: Vocabulary, draft: Draft) -> Result<Chart, Unread> {
    let Draft { id, table, marks } = draft;
    match Arc::new(alloc, table) {
        Ok(table) => Ok(Chart {
            id,
            table,
            names,
            marks,
        }),
        Err(_) => Err(Unread::Memory),
    }
}

/// The description, or the faults that were noted.
fn finished(alloc: Global, reading: Reading<'_>, draft: Draft) -> Result<Chart, Unread> {
    if reading.faults.is_empty() {
        return complete(alloc, reading.into_names(), draft);
    }
    Err(refused(alloc, reading))
}

/// Reads a description from its tree.
fn chart_of(alloc: Global, text: &str, node: &Node<'_>) -> Result<Chart, Unread> {
    let mut reading = Reading::new(alloc, text.as_bytes())?;
    let mut draft = Draft::new(alloc);
    match machine(&mut reading, node, &mut draft) {
        Ok(()) => finished(alloc, reading, draft),
        Err(_) => Err(Unread::Memory),
    }
}

/// Reads a description from a text, with memory for texts that have escapes.
fn read_by<'a>(alloc: Global, text: &'a str, scratch: &'a mut Scratch) -> Result<Chart, Unread> {
    match tree_of(alloc, text, scratch) {
        Ok(node) => chart_of(alloc, text, &node),
        Err(Broken::Memory) => Err(Unread::Memory),
        Err(Broken::Syntax(at, standing)) => Err(no_tree(alloc, text, at, standing)),
    }
}

/// Reads a description from a text.
fn read_text(alloc: Global, text: &str) -> Result<Chart, Unread> {
    let mut scratch = Scratch::new(alloc);
    read_by(alloc, text, &mut scratch)
}

/// Reads a description: a JSON text in UTF-8, of at most 1,048,576 bytes. It may find no memory.
///
/// A text that is no JSON has one fault. Of other texts up to twenty are told, in the order of their places.
pub fn read_chart(alloc: Global, text: &[u8]) -> Result<Chart, Unread> {
    if text.len() > MOST_BYTES {
        let words = "the description has more than 1,048,576 bytes";
        return Err(not_read_for(alloc, &[], 0, words));
    }
    match std::str::from_utf8(text) {
        Ok(text) => read_text(alloc, text),
        Err(fault) => {
            let words = "the description is no UTF-8 from here on";
            Err(not_read_for(alloc, text, fault.valid_up_to(), words))
        }
    }
}
