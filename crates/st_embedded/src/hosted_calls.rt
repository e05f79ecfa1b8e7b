//! What hosted machines are told, by number.
ghost use Rattle.std.specs.Prelude.{◌≡◌, ◌+◌, ◌<◌, ◌^◌, None, Some, Ok, Err, IsSome, OnOk, OnErr, IfOk, IfErr, IfSome, IfNone, []};
ghost use Rattle.st_answers.specs.declared.answer.Answer.TheVariants as answer;
ghost use Rattle.st_answers.specs.declared.command.Command.TheVariants as command;
ghost use Rattle.st_answers.specs.declared.turned.Turned.TheVariants.{Reported};
ghost use Rattle.st_core.specs.Callbacks.{callbacks_of};
ghost use Rattle.st_core.specs.Run.{Does};
ghost use Rattle.st_embedded.specs.Hosted.{Hosted, IsStarted, WhyNotStarted, hosted_callbacks, answered_by, last_word};
ghost use Rattle.st_embedded.specs.Table.{machine_at, Changes, Same, Puts};
ghost use Rattle.st_events.specs.declared.refusal.Refusal.TheVariants.{NoSuchMachine};
ghost use Rattle.st_hosted.specs.Turning.{IsNext, IsWhyNot};
ghost use Rattle.st_hosted.specs.declared.why_not.WhyNot.TheVariants.{Refused};

use crate::{Machines, id_of};
use indexmap::IndexMap;
use st_answers::Report;
use st_core::{Core, Start, Turned};
use st_events::{Module, PlainList, Reason, Refusal};
use st_hosted::{Begin, HostAnswer, HostOutcome, Payload, WhyNot, stop_by, turn_by};
use std::alloc::Global;

/// Starts a hosted machine at a moment, in milliseconds, and answers its number with what its start did. The answers
/// are the module of its start: their outcome is asked for by nobody.
///
/// Refused as `Core::start` refuses it, and with `Full` where no number is left. A refusal changes nothing.
///
/// Manual: `start/3`, `Module:init/1`.
pub fn start_hosted(
    all: &mut Machines,
    begin: &Begin,
    answers: HostAnswer,
    now: u64,
) -> Result<(u64, Report<u64>), Refusal>
    ensures started { IfOk result (λ started. (started.0 ≡ all.old.next_id) × ((after : Hosted) × IsStarted answers begin.now started.0 now started.1 after × Puts all.old.hosted all.new.hosted started.0 after)) }
    ensures rest { IfOk result (λ started. all.new ≡ record all.old { hosted = all.new.hosted; next_id = all.old.next_id + 1 }) }

    ensures refusals { IfErr result (λ refusal. WhyNotStarted answers begin.now all.old.next_id now refusal) }
    ensures unchanged { OnErr result (Same all.old.hosted all.new.hosted) }
    ensures unchanged_rest { OnErr result (all.new ≡ record all.old { hosted = all.new.hosted }) }
{
    let number = all.next_id;
    if number == u64::MAX {
        return Err(Refusal::Full);
    }
    match Core::start(all.alloc, answers, id_of(number), begin, now) {
        Ok(Start::Running(core, report)) => match all.hosted.insert(number, core) {
            Ok(_) => {
                all.next_id = number + 1;
                Ok((number, report))
            }
            Err(_) => Err(Refusal::NoMemory),
        },
        Ok(Start::Ignored) => unreachable!(),
        Ok(Start::Stopped(_)) => unreachable!(),
        Err(refused) => Err(refused.refusal),
    }
}

/// These answers, with enter calls where the machine's last module has them.
fn as_before(core: &Core<HostAnswer>, answers: HostAnswer) -> HostAnswer
    ensures { result ≡ record answers { enters = core.now.module_.enters } }
{
    let enters = core.module().enters;
    HostAnswer { enters, ..answers }
}

/// Makes the turn of the event of a number of the machine of a number, at a moment, in milliseconds, with these answers,
/// as `turn_by` does. Whether there are enter calls is what the machine's last module says. Where there is no such
/// machine, it is refused with `NoSuchMachine`. A turn that is not made changes nothing; the answers are dropped.
///
/// Manual: `Module:handle_event/4`, `transition_option()`.
pub fn turn_hosted(
    machines: &mut IndexMap<u64, Core<HostAnswer>>,
    number: u64,
    event: u64,
    answers: HostAnswer,
    now: u64,
) -> Result<Report<u64>, WhyNot>
    ensures does { IfOk result (λ report. Changes (λ before after. (IsNext before.machine event) × Does hosted_callbacks (answered_by answers before) (command.Turn now) (answer.Turn (Ok (Reported report))) after) machines.old machines.new number) }
    ensures refusals { IfErr result (λ why. (before : Hosted) → machine_at machines.old number ≡ Some before → IsWhyNot hosted_callbacks (answered_by answers before) event now why) }
    ensures absent { machine_at machines.old number ≡ None → result ≡ Err (Refused NoSuchMachine) }

    ensures unchanged { OnErr result (Same machines.old machines.new) }
{
    match machines.get_mut(&number) {
        Some(core) => {
            let answers = as_before(core, answers);
            match turn_by(core, event, answers, now) {
                Ok(Turned::Reported(report)) => Ok(report),
                Ok(Turned::Idle) => unreachable!(),
                Err(not_turned) => Err(not_turned.why),
            }
        }
        None => Err(WhyNot::Refused(Refusal::NoSuchMachine)),
    }
}

/// Answers that are a last word alone. They take no memory.
fn last_word(alloc: Global, word: u32) -> HostAnswer
    ensures { result ≡ last_word word }
{
    HostAnswer {
        enters: false,
        outcome: HostOutcome::KeepStateAndData(PlainList::new(alloc)),
        entered: None,
        word,
    }
}

/// Ends the machine of a number for a reason, with a last word, as `stop_by` does. Where there is none, it is refused
/// with `NoSuchMachine`. A refusal changes nothing.
///
/// Manual: `stop/3`, `Module:terminate/3`.
pub fn stop_hosted(
    alloc: Global,
    machines: &mut IndexMap<u64, Core<HostAnswer>>,
    number: u64,
    reason: Reason,
    word: u32,
) -> Result<u32, Refusal>
    ensures does { IfOk result (λ said. Changes (λ before after. Does hosted_callbacks (answered_by (last_word word) before) (command.Stop reason) (answer.Stop (Ok said)) after) machines.old machines.new number) }
    ensures refusals { IfErr result (λ refusal. (before : Hosted) → machine_at machines.old number ≡ Some before → Does hosted_callbacks (answered_by (last_word word) before) (command.Stop reason) (answer.Stop (Err refusal)) (answered_by (last_word word) before)) }
    ensures absent { machine_at machines.old number ≡ None → result ≡ Err NoSuchMachine }

    ensures unchanged { OnErr result (Same machines.old machines.new) }
{
    match machines.get_mut(&number) {
        Some(core) => {
            let answers = as_before(core, last_word(alloc, word));
            match stop_by(core, reason, answers) {
                Ok(word) => Ok(word),
                Err(refused) => Err(refused.refusal),
            }
        }
        None => Err(Refusal::NoSuchMachine),
    }
}

/// Answers a call of the machine of a number, as `Core::reply` does, or `None` where there is no such machine.
///
/// Manual: `reply/2`.
pub fn reply_at(
    machines: &mut IndexMap<u64, Core<HostAnswer>>,
    number: u64,
    request: u64,
    content: Payload,
) -> Option<bool>
    ensures does { IfSome result (λ taken. Changes (λ before after. Does hosted_callbacks before (command.Reply (record { machine = before.machine.id; request = request }) content) (answer.Reply taken) after) machines.old machines.new number) }
    ensures absent { IfNone result ((machine_at machines.old number ≡ None) × Same machines.old machines.new) }
{
    let core = machines.get_mut(&number)?;
    let tag = core.tag(request);
    Some(core.reply(tag, content))
}
