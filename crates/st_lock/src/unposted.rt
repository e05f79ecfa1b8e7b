//! Why a bounded post was not taken.
ghost use Rattle.std.specs.Prelude.{◌≡◌};
ghost use Rattle.st_lock.specs.Bounded.{content_in};

use st_cell::Refused;

/// Why nothing was posted, where posts are bounded. In each case the content comes back.
///
/// Ours: docs/DECISIONS.md, Ports.
#[derive(Debug, PartialEq, Eq, Drop)]
pub enum Unposted<C> {
    /// As many events wait at the machine as may.
    Busy(C),
    /// Who serves the machine takes no posts any more. `Port::post_within` never answers this: it is for those that stand above
    /// it, as a service's port.
    Closed(C),
    /// The machine refused the post, as `Port::post` is refused.
    Refused(Refused<C>),
}

impl<C> Unposted<C> {
    /// The content that was not posted.
    ///
    /// Ours: docs/DECISIONS.md, Ports.
    pub fn into_content(self) -> C
        ensures { result ≡ content_in self }
    {
        match self {
            Unposted::Busy(content) => content,
            Unposted::Closed(content) => content,
            Unposted::Refused(refused) => refused.value,
        }
    }
}
