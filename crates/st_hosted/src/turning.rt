//! A turn with the answers of a host.
ghost use Rattle.std.specs.Prelude.{◌≡◌, None, Ok, IfOk, IfErr, OnOk, OnErr};
ghost use Rattle.std.specs.Bool.{OnTrue, OnFalse};
ghost use Rattle.st_answers.specs.declared.answer.Answer.TheVariants as answer;
ghost use Rattle.st_answers.specs.declared.command.Command.TheVariants as command;
ghost use Rattle.st_core.specs.Callbacks.{callbacks_of};
ghost use Rattle.st_core.specs.Run.{Does};
ghost use Rattle.st_hosted.specs.Turning.{IsNext, IsWhyNot};

use crate::{NotTurned, WhyNot};
use st_core::{Core, Turned};
use st_events::Module;

/// Says whether the event of a number is another than the next one of a machine that runs.
fn is_stale<M: Module>(core: &Core<M>, number: u64) -> bool
    ensures stale { OnTrue result ((core.now.machine.ended ≡ None) × (IsNext core.now.machine number → ⊥)) }
    ensures next { OnFalse result (core.now.machine.ended ≡ None → IsNext core.now.machine number) }
{
    if core.ended().is_some() {
        return false;
    }
    match core.next() {
        Some((next, _, _)) => next != number,
        None => true,
    }
}

/// Makes the turn of the event that has this number, at a moment, in milliseconds, with these answers as the
/// machine's module, which they stay. What was the module before is let go.
///
/// Not made with `NotNext` where the next event of a machine that runs has another number, or there is none: so an
/// answer to one event is never taken for another's. An event that was postponed comes again with its number. Else it
/// is refused as `Core::turn` refuses it, with `Stopped` once the machine has ended. A turn that is not made changes
/// nothing, the module included, and gives the answers back: one that was refused for memory may be made again with
/// them, and nobody is asked again.
///
/// Manual: `Module:handle_event/4`, `transition_option()`; ours: docs/TRANSITIONS.md, Refusals.
pub fn turn_by<M: Module>(
    core: &mut Core<M>,
    number: u64,
    answers: M,
    now: u64,
) -> Result<Turned<M::State>, NotTurned<M>>
    ensures next { OnOk result (IsNext core.old.machine number) }
    ensures does { IfOk result (λ turned. Does (callbacks_of M.Module M.State.eq) (record core.old { module_ = answers }) (command.Turn now) (answer.Turn (Ok turned)) core.new) }

    ensures refusals { IfErr result (λ not_turned. IsWhyNot (callbacks_of M.Module M.State.eq) (record core.old { module_ = answers }) number now not_turned.why) }
    ensures unchanged { OnErr result (core.new ≡ core.old) }
    ensures returned { IfErr result (λ not_turned. not_turned.answers ≡ answers) }
{
    if is_stale(core, number) {
        return Err(NotTurned {
            why: WhyNot::NotNext,
            answers,
        });
    }
    let module = core.replace_module(answers);
    match core.turn(now) {
        Ok(turned) => {
            drop(module);
            Ok(turned)
        }
        Err(refusal) => {
            let answers = core.replace_module(module);
            Err(NotTurned {
                why: WhyNot::Refused(refusal),
                answers,
            })
        }
    }
}
