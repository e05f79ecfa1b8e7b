//! Why a machine could not be served on.

use crate::Event;
use st_core::Refusal;

/// Why a machine could not be served on. Nothing is lost: the machine is as the turns before left it.
///
/// Ours: docs/DECISIONS.md, Actors.
#[derive(Debug, PartialEq, Eq, Drop)]
pub struct Unserved<C> {
    /// What a post, a tick or a turn was refused with: `NoMemory`, or `Exhausted` where too few numbers are left.
    pub refusal: Refusal,
    /// The event that was received and could not be posted, if that is what was refused. Whoever goes on posts it first.
    pub event: Option<Event<C>>,
}
