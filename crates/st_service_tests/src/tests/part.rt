//! At whose hatches rows are played.
use super::row::Row;

/// Rows, and at whose hatches they are played.
#[derive(Drop)]
pub enum Part {
    /// At the hatch of the clerk of a place.
    At(usize, &'static [Row]),
    /// At each hatch, one clerk after another.
    Each(&'static [Row]),
}
