//! As what an event is inserted.
ghost use Rattle.std.specs.Prelude.{◌≡◌};
ghost use Rattle.st_table.specs.Rules.{raised_as};

use st_events::Kind;

/// As what an event is inserted. Manual: `action()`, the bullet on `next_event`.
#[derive(Clone, Copy)]
pub enum Raised {
    /// As an internal event.
    Internal,
    /// As a cast.
    Cast,
    /// As an info.
    Info,
}

/// The kind of the event that is inserted.
pub(crate) fn raised_as(raised: Raised) -> Kind
    ensures { result ≡ raised_as raised }
{
    match raised {
        Raised::Internal => Kind::Internal,
        Raised::Cast => Kind::Cast,
        Raised::Info => Kind::Info,
    }
}
