//! What a line of a script brings about.

use st_events::{PlainText, Refusal};

/// What a line of a script brings about.
#[derive(Debug, Drop)]
pub enum Effect {
    /// Nothing is printed.
    Silent,
    /// This is printed, line feed included.
    Printed(PlainText),
    /// The line is refused, and changes nothing.
    Refuses(Refusal),
    /// The line has no form.
    Malformed,
}
