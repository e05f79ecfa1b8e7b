//! Lines and columns of places in a text.

use std::alloc::{AllocError, Global};

/// A line and a column, each from 1 on.
#[derive(Clone, Copy)]
pub(crate) struct Spot {
    pub(crate) line: usize,
    pub(crate) column: usize,
}

/// How many bytes lie between two places whose lines and columns are kept.
const STRIDE: usize = 256;

/// The lines and columns of a text: of every 256th byte they are kept, and those between are counted from there.
#[derive(Drop)]
pub(crate) struct Places<'a> {
    bytes: &'a [u8],
    spots: Vec<Spot>,
}

/// Where the byte behind this one stands.
fn behind(spot: Spot, byte: u8) -> Spot {
    if byte == b'\n' {
        return Spot {
            line: spot.line.saturating_add(1),
            column: 1,
        };
    }
    if (128..192).contains(&byte) {
        return spot;
    }
    Spot {
        line: spot.line,
        column: spot.column.saturating_add(1),
    }
}

/// Where the byte behind these stands.
fn behind_all(first: Spot, bytes: &[u8]) -> Spot {
    let mut spot = first;
    for byte in bytes {
        spot = behind(spot, *byte);
    }
    spot
}

/// Where a byte of a text stands, of which no place is kept.
pub(crate) fn spot_in(bytes: &[u8], at: usize) -> Spot {
    let first = Spot { line: 1, column: 1 };
    match bytes.get(..at) {
        Some(passed) => behind_all(first, passed),
        None => first,
    }
}

impl<'a> Places<'a> {
    pub(crate) fn new(alloc: Global, bytes: &'a [u8]) -> Result<Places<'a>, AllocError> {
        let mut spots = Vec::new(alloc);
        let mut spot = Spot { line: 1, column: 1 };
        for block in bytes.chunks(STRIDE) {
            spots.push(spot)?;
            spot = behind_all(spot, block);
        }
        Ok(Places { bytes, spots })
    }

    /// Where a byte stands.
    pub(crate) fn spot(&self, at: usize) -> Spot {
        let block = at / STRIDE;
        let start = at - at % STRIDE;
        let first = match self.spots.get(block) {
            Some(spot) => *spot,
            None => Spot { line: 1, column: 1 },
        };
        match self.bytes.get(start..at) {
            Some(bytes) => behind_all(first, bytes),
            None => first,
        }
    }

    /// Whether a text of the description stands at a place as it is, with no escape.
    pub(crate) fn is_plain(&self, at: usize, text: &str) -> bool {
        let start = at.saturating_add(1);
        let end = start.saturating_add(text.len());
        match self.bytes.get(start..end) {
            Some(bytes) => !bytes.contains(&b'\\') && self.bytes.get(end) == Some(&b'"'),
            None => false,
        }
    }
}
