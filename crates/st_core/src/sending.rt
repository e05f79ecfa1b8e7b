//! What a list of actions sends goes into the outbox.
ghost use Rattle.std.specs.Prelude.{◌≡◌, ◌+◌, ◌≤◌, ◌^◌, length};
ghost use Rattle.st_actions.specs.Plan.{sends_of};
ghost use Rattle.st_outbox.specs.Outbox.{with_sent};

use st_actions::take_send;
use st_events::{Actions, MachineId};
use st_outbox::Outgoing;

/// A machine sends what a list of actions sends, so many messages, in their order, by places that were reserved.
pub(crate) fn send_each<C: Drop>(
    outgoing: &mut Outgoing<C>,
    sender: MachineId,
    count: usize,
    actions: &mut Actions<C>,
)
    requires count { count ≡ length (sends_of actions.old) }
    requires reserved { count ≤ outgoing.old.reserved }
    requires numbers { outgoing.old.outbox.next_number + count ≤ 2 ^ 63 }
    ensures { outgoing.new.outbox ≡ with_sent sender outgoing.old.outbox (sends_of actions.old) }
{
    if count > 0 {
        send_all(outgoing, sender, actions);
    }
}

/// The same, where there is something to be sent.
// Few lists send something, and the others are not to get anything ready for this.
#[inline(never)]
fn send_all<C: Drop>(outgoing: &mut Outgoing<C>, sender: MachineId, actions: &mut Actions<C>)
    requires reserved { length (sends_of actions.old) ≤ outgoing.old.reserved }
    requires numbers { outgoing.old.outbox.next_number + length (sends_of actions.old) ≤ 2 ^ 63 }
    ensures { outgoing.new.outbox ≡ with_sent sender outgoing.old.outbox (sends_of actions.old) }
{
    for index in 0..actions.len() {
        if let Some((target, content)) = take_send(actions, index) {
            outgoing.send(sender, target, content);
        }
    }
}
