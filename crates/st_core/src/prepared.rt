//! What a transition needs before it changes anything: numbers and memory.
ghost use Rattle.std.specs.Prelude.{◌≡◌, ◌+◌, ◌≤◌, ◌^◌, [], nat_le, OnOk};
ghost use Rattle.std.specs.List.{range_with_len};
ghost use Rattle.st_actions.specs.Counted.{IsCountOf};
ghost use Rattle.st_actions.specs.Plan.{inserts_of};
ghost use Rattle.st_actions.specs.Taking.{all_settings_of};
ghost use Rattle.st_agenda.specs.Agenda.{running_on};
ghost use Rattle.st_agenda.specs.Timing.{has_numbers};
ghost use Rattle.st_core.specs.Gathering.{IsEmpty};
ghost use Rattle.st_core.specs.Prepared.{KeepsAll, Prepares};

use crate::decisions::note_decisions;
use crate::gathered::Gathered;
use crate::numbers::note_numbers;
use st_actions::{Counts, count_last};
use st_agenda::Agenda;
use st_events::{Actions, NUMBER_LIMIT, PlainList, Refusal};
use st_outbox::Outgoing;
use std::alloc::{AllocError, Global};

/// Sees that there are numbers enough for what actions ask for, and gets all memory for it: for what the report tells, and
/// for the events, timers and messages, where the state changes or not. Of all that is asked of one timer the last alone is
/// left among the actions. Nothing that waits, runs or was sent changes, and after that what they ask for cannot fail.
pub(crate) fn prepare<S: Drop, C: Drop>(
    alloc: Global,
    agenda: &mut Agenda<C>,
    outgoing: &mut Outgoing<C>,
    changed: bool,
    actions: &mut Actions<C>,
    gathered: &mut Gathered<S>,
) -> Result<Counts, Refusal>
    requires empty { IsEmpty gathered.old }
    ensures same { KeepsAll actions.old actions.new agenda.old agenda.new outgoing.old outgoing.new gathered.old gathered.new }
    ensures prepared { Prepares changed actions.old actions.new agenda.old agenda.new outgoing.old outgoing.new gathered.new result }
{
    let counts = count_last(alloc, actions)?;
    let next = agenda.next_number();
    if !has_numbers(agenda, changed, actions, &counts)
        || !has_message_numbers(outgoing, counts.sends)
    {
        return Err(Refusal::Exhausted);
    }
    gathered.replied.reserve_exact(counts.replies)?;
    note_numbers(alloc, next, counts.inserts, &mut gathered.inserted)?;
    note_decisions(alloc, counts.settings, actions, &mut gathered.set)?;
    agenda.reserve_for(counts.inserts, counts.settings)?;
    prepare_sends(alloc, outgoing, counts.sends, &mut gathered.sent)?;
    Ok(counts)
}

/// Says whether there are numbers enough for actions that come to these counts, where the state changes or not.
fn has_numbers<C>(agenda: &Agenda<C>, changed: bool, actions: &Actions<C>, counts: &Counts) -> bool
    requires { IsCountOf counts.now actions.now }
    ensures { result ≡ has_numbers agenda.now.schedule.next_number (running_on changed agenda.now.schedule) (inserts_of actions.now) (all_settings_of actions.now) }
{
    let left = NUMBER_LIMIT - agenda.next_number();
    if counts.updates == 0 {
        return counts.numbers <= left;
    }
    let updating = agenda.numbers_of_updates(actions, changed);
    match counts.numbers.checked_add(updating) {
        None => false,
        Some(numbers) => numbers <= left,
    }
}

/// Says whether there are numbers enough for so many messages more.
fn has_message_numbers<C>(outgoing: &Outgoing<C>, count: usize) -> bool
    ensures { result ≡ nat_le (outgoing.now.outbox.next_number + count) (2 ^ 63) }
{
    count as u64 <= NUMBER_LIMIT - outgoing.next_number()
}

/// Notes the numbers of so many messages more, and gets the places for them. Where there are none, it does nothing.
fn prepare_sends<C>(
    alloc: Global,
    outgoing: &mut Outgoing<C>,
    count: usize,
    sent: &mut PlainList<u64>,
) -> Result<(), AllocError>
    requires numbers { outgoing.old.outbox.next_number + count ≤ 2 ^ 63 }
    requires empty { sent.old ≡ [] }
    ensures sent { OnOk result (sent.new ≡ range_with_len outgoing.old.outbox.next_number count) }
    ensures places { OnOk result (count ≤ outgoing.new.reserved) }
    ensures same_outbox { outgoing.new.outbox ≡ outgoing.old.outbox }
{
    if count == 0 {
        Ok(())
    } else {
        prepare_each(alloc, outgoing, count, sent)
    }
}

/// The same, where there is something to be sent.
// Few lists send something, and the others are not to get anything ready for this.
#[inline(never)]
fn prepare_each<C>(
    alloc: Global,
    outgoing: &mut Outgoing<C>,
    count: usize,
    sent: &mut PlainList<u64>,
) -> Result<(), AllocError>
    requires numbers { outgoing.old.outbox.next_number + count ≤ 2 ^ 63 }
    requires empty { sent.old ≡ [] }
    ensures sent { OnOk result (sent.new ≡ range_with_len outgoing.old.outbox.next_number count) }
    ensures places { OnOk result (count ≤ outgoing.new.reserved) }
    ensures same_outbox { outgoing.new.outbox ≡ outgoing.old.outbox }
{
    note_numbers(alloc, outgoing.next_number(), count, sent)?;
    outgoing.reserve(count)
}
