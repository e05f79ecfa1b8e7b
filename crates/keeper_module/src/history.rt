//! The data of a connection.

use crate::Place;

/// What a connection remembers.
///
/// Manual: `data()`.
#[derive(Clone, Copy)]
pub struct History {
    /// Where it belongs.
    pub place: Place,
    /// How many attempts to connect have failed in a row.
    pub failures: u8,
    /// For how many milliseconds it backs off after the next failure.
    pub pause: u32,
    /// How often it was checked out; the count stays at 2^32 - 1.
    pub count: u32,
}
