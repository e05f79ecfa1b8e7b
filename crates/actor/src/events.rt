//! The channel in front of a machine.

ghost use Rattle.std.specs.Prelude.{◌≡◌, IfErr};
ghost use Rattle.st_events.specs.declared.refusal.Refusal.TheVariants.{NoMemory};

use crate::Event;
use crossbeam_channel::{Receiver, Sender, bounded};
use st_core::Refusal;
use std::alloc::Global;

/// Where events are sent to a machine. A copy is another sender: the machine is served until each is gone.
///
/// Ours: docs/DECISIONS.md, Actors.
pub type Inlet<C> = Sender<Event<C>, Global>;

/// Where the events come from that are posted to a machine.
///
/// Ours: docs/DECISIONS.md, Actors.
pub type Events<C> = Receiver<Event<C>, Global>;

/// A channel in which at most so many events wait, at least one. Where it is full, `Sender::send` waits, and
/// `Sender::try_send` gives the event back. What a machine holds itself is not counted.
///
/// Refused with `NoMemory` where there is no memory for it. Later it takes none.
///
/// Ours: docs/DECISIONS.md, Actors.
pub fn channel<C: Drop>(alloc: Global, limit: usize) -> Result<(Inlet<C>, Events<C>), Refusal>
    ensures refusals { IfErr result (λ refusal. refusal ≡ NoMemory) }
{
    match bounded(alloc, limit.max(1)) {
        Ok(ends) => Ok(ends),
        Err(_) => Err(Refusal::NoMemory),
    }
}
