//! What a refused call gives back.
ghost use Rattle.std.specs.Prelude.{◌≡◌};

use crate::Refusal;

/// Why a call was refused, and the value that it had taken.
///
/// Ours: docs/TRANSITIONS.md, Refusals.
#[derive(Debug, PartialEq, Eq, Drop)]
pub struct Refused<T> {
    /// Why.
    pub refusal: Refusal,
    /// What the call had taken, as it was.
    pub value: T,
}

impl<T> Refused<T> {
    /// A refusal, with the value that the call had taken.
    ///
    /// Ours: docs/TRANSITIONS.md, Refusals.
    pub fn new(refusal: Refusal, value: T) -> Refused<T>
        ensures { result ≡ record { refusal = refusal; value = value } }
    {
        Refused { refusal, value }
    }
}

/// Why the call was refused, so that `?` turns it into a refusal; the value is let go.
impl<T: Drop> From<Refused<T>> for Refusal {
    ghost from_gives = { λ refused refusal. refusal ≡ refused.refusal };

    fn from(refused: Refused<T>) -> Refusal {
        refused.refusal
    }
}
