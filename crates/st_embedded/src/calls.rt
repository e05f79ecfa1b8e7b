//! What the machines of a map are told, by number.
ghost use Rattle.std.specs.Prelude.{◌≡◌, None, Some, Err, IsSome, is_some, OnErr, IfSome, IfNone};
ghost use Rattle.st_answers.specs.declared.answer.Answer.TheVariants as answer;
ghost use Rattle.st_answers.specs.declared.command.Command.TheVariants as command;
ghost use Rattle.st_core.specs.Callbacks.{callbacks_of};
ghost use Rattle.st_core.specs.MachineState.{Machine};
ghost use Rattle.st_core.specs.Run.{Does};
ghost use Rattle.st_core.specs.UntilIdle.{HasStopped, HasTurned};
ghost use Rattle.st_core.specs.Replies.{peek_of};
ghost use Rattle.st_requests.specs.declared.collected.Collected.TheVariants.{Reply};
ghost use Rattle.st_embedded.specs.Table.{machine_at, Changes, Same, Loses};
ghost use Rattle.st_events.specs.declared.refusal.Refusal.TheVariants.{NoSuchMachine};

use indexmap::IndexMap;
use st_core::{Core, Entry, Turns};
use st_events::{Message, Module, Reason, Refusal, Refused};
use st_requests::Collected;

/// Posts an event to the machine of a number, as `Core::post` does. Where there is none, it is refused with
/// `NoSuchMachine`. A refusal changes nothing and gives the content back.
///
/// Manual: `call/2`, `cast/2`.
pub fn post_at<M: Module>(
    machines: &mut IndexMap<u64, Core<M>>,
    number: u64,
    entry: Entry,
    content: M::Content,
) -> Result<u64, Refused<M::Content>>
    ensures does { IsSome (machine_at machines.old number) → Changes (λ before after. Does (callbacks_of M.Module M.State.eq) before (command.Post entry content) (answer.Post result) after) machines.old machines.new number }
    ensures absent { machine_at machines.old number ≡ None → result ≡ Err (record { refusal = NoSuchMachine; value = content }) }

    ensures unchanged { OnErr result (Same machines.old machines.new) }
{
    match machines.get_mut(&number) {
        Some(core) => core.post(entry, content),
        None => Err(Refused::new(Refusal::NoSuchMachine, content)),
    }
}

/// Tells the machine of a number the moment, as `Core::tick_to` does. Where there is none, it is refused with
/// `NoSuchMachine`. A refusal changes nothing.
///
/// Ours: docs/TRANSITIONS.md, Time-outs.
pub fn tick_at<M: Module>(
    machines: &mut IndexMap<u64, Core<M>>,
    number: u64,
    now: u64,
) -> Result<u64, Refusal>
    ensures does { IsSome (machine_at machines.old number) → Changes (λ before after. Does (callbacks_of M.Module M.State.eq) before (command.Tick now) (answer.Tick result) after) machines.old machines.new number }
    ensures absent { machine_at machines.old number ≡ None → result ≡ Err NoSuchMachine }

    ensures unchanged { OnErr result (Same machines.old machines.new) }
{
    match machines.get_mut(&number) {
        Some(core) => core.tick_to(now),
        None => Err(Refusal::NoSuchMachine),
    }
}

/// Hands out what is kept for a call of the machine of a number, as `Core::collect` does, or `None` where there is no
/// such machine.
///
/// Manual: `receive_response/1`.
pub fn collect_at<M: Module>(
    machines: &mut IndexMap<u64, Core<M>>,
    number: u64,
    request: u64,
) -> Option<Collected<M::Content>>
    ensures does { IfSome result (λ collected. Changes (λ before after. Does (callbacks_of M.Module M.State.eq) before (command.Collect (record { machine = before.machine.id; request = request })) (answer.Collect collected) after) machines.old machines.new number) }
    ensures shown { IfSome result (λ collected. (before : Machine M M.State M.Data M.Content) → machine_at machines.old number ≡ Some before → (content : M.Content) → collected ≡ Reply content → peek_of before.machine (record { machine = before.machine.id; request = request }) ≡ Some content) }
    ensures absent { IfNone result ((machine_at machines.old number ≡ None) × Same machines.old machines.new) }
{
    let core = machines.get_mut(&number)?;
    let tag = core.tag(request);
    Some(core.collect(tag))
}

/// Takes out the first message of the machine of a number, as `Core::take_out` does, or `None` where there is no such
/// machine.
///
/// Ours: docs/DECISIONS.md, Messages.
pub fn take_out_at<M: Module>(
    machines: &mut IndexMap<u64, Core<M>>,
    number: u64,
) -> Option<Option<Message<M::Content>>>
    ensures does { IfSome result (λ taken. Changes (λ before after. Does (callbacks_of M.Module M.State.eq) before command.TakeOut (answer.TakeOut taken) after) machines.old machines.new number) }
    ensures absent { IfNone result ((machine_at machines.old number ≡ None) × Same machines.old machines.new) }
{
    let core = machines.get_mut(&number)?;
    Some(core.take_out())
}

/// Makes turns of the machine of a number until it is idle, but at most so many, as `Core::turn_until_idle` does, or
/// answers `None` where there is no such machine.
///
/// Ours: docs/DECISIONS.md, Runs.
pub fn run_at<M: Module>(
    machines: &mut IndexMap<u64, Core<M>>,
    number: u64,
    now: u64,
    at_most: u64,
) -> Option<Turns>
    ensures does { IfSome result (λ turns. Changes (λ before after. HasTurned (callbacks_of M.Module M.State.eq) now before turns after × HasStopped at_most turns after.machine) machines.old machines.new number) }
    ensures absent { IfNone result ((machine_at machines.old number ≡ None) × Same machines.old machines.new) }
{
    let core = machines.get_mut(&number)?;
    Some(core.turn_until_idle(now, at_most))
}

/// Ends the machine of a number for a reason, as `Core::stop` does. Where there is none, it is refused with
/// `NoSuchMachine`. A refusal changes nothing.
///
/// Manual: `stop/3`.
pub fn stop_at<M: Module>(
    machines: &mut IndexMap<u64, Core<M>>,
    number: u64,
    reason: Reason,
) -> Result<u32, Refusal>
    ensures does { IsSome (machine_at machines.old number) → Changes (λ before after. Does (callbacks_of M.Module M.State.eq) before (command.Stop reason) (answer.Stop result) after) machines.old machines.new number }
    ensures absent { machine_at machines.old number ≡ None → result ≡ Err NoSuchMachine }

    ensures unchanged { OnErr result (Same machines.old machines.new) }
{
    match machines.get_mut(&number) {
        Some(core) => core.stop(reason),
        None => Err(Refusal::NoSuchMachine),
    }
}

/// Drops the machine of a number, ended or not, and says whether there was one.
///
/// Ours: docs/EMBEDDING.md.
pub fn remove_at<M: Module>(machines: &mut IndexMap<u64, Core<M>>, number: u64) -> bool
    ensures removed { Loses machines.old machines.new number }
    ensures was_there { result ≡ is_some (machine_at machines.old number) }
{
    machines.swap_remove(&number).is_some()
}
