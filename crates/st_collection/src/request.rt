//! A request that was sent.
ghost use Rattle.std.specs.Prelude.{◌≡◌};
ghost use Rattle.st_events.specs.declared.tag.Tag.{Tag};

use st_events::Tag;

/// A request that was sent.
///
/// Manual: `request_id()`.
pub trait Request: Drop {
    // Its tag.
    ghost tag_is: { Self → Tag };

    /// Its tag.
    ///
    /// Manual: `request_id()`.
    fn tag(&self) -> Tag
        ensures { result ≡ tag_is self.now };
}
