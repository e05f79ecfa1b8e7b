//! What an observer is to be told.

/// What a tally is to have counted.
#[derive(Drop)]
pub enum Reports {
    /// So many reports, this sum of the numbers of their events, and so many entries in all.
    Are(u64, u64, u64),
    /// The report of each event from the first on, once.
    OfEach,
}
