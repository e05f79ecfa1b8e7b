//! What a bell is told.

/// What a bell is told.
#[derive(Clone, Copy, Debug, PartialEq, Eq)]
pub enum Wish {
    /// It rings, for 20 milliseconds.
    Ring,
    /// It is quiet.
    Hush,
    /// It sends word to its neighbour.
    Tell,
    /// It ends.
    Part,
}
