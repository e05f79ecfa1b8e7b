//! What comes of a visit to a machine that was noted as due.

use st_hall::Token;

/// What comes of a visit to a machine that was noted as due.
#[derive(Clone, Copy)]
pub(crate) struct Visit {
    /// Whether it was ticked.
    pub(crate) is_ticked: bool,
    /// The token that it was issued by that, if it was.
    pub(crate) wake: Option<Token>,
    /// When it is to be visited next, if it is.
    pub(crate) next: Option<u64>,
}
