//! The clocks of a hall of bells.

/// The clocks of a hall of bells, one for each who reads it.
#[derive(Drop)]
pub struct Clocks<C> {
    pub own: C,
    pub of_hall: C,
    pub of_ticker: C,
    /// For a ticker that is made again.
    pub spare: C,
}
