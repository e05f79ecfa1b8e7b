//! What a tick of a machine that workers serve answers.

use st_events::Token;

/// The machine was told the moment.
///
/// Ours: docs/DECISIONS.md, Tokens.
#[derive(Clone, Copy, Debug, PartialEq, Eq)]
pub struct Ticked {
    /// How many time-outs expired.
    pub expired: u64,
    /// The token that was issued, if one was: the caller has it.
    pub wake: Option<Token>,
}
