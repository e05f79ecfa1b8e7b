//! A stop with the last word of a host.
ghost use Rattle.std.specs.Prelude.{◌≡◌, Ok, Err, IfOk, IfErr, OnErr};
ghost use Rattle.st_answers.specs.declared.answer.Answer.TheVariants as answer;
ghost use Rattle.st_answers.specs.declared.command.Command.TheVariants as command;
ghost use Rattle.st_core.specs.Callbacks.{callbacks_of};
ghost use Rattle.st_core.specs.Run.{Does};

use st_core::Core;
use st_events::{Module, Reason, Refused};

/// Ends the machine for a reason with these answers as its module, which they stay: the last word is theirs. What
/// was the module before is let go.
///
/// Refused as `Core::stop` refuses it, which changes nothing, the module included, and gives the answers back.
///
/// Manual: `stop/3`, `Module:terminate/3`; ours: docs/DECISIONS.md, A stop from outside.
pub fn stop_by<M: Module>(core: &mut Core<M>, reason: Reason, answers: M) -> Result<u32, Refused<M>>
    ensures does { IfOk result (λ word. Does (callbacks_of M.Module M.State.eq) (record core.old { module_ = answers }) (command.Stop reason) (answer.Stop (Ok word)) core.new) }

    ensures refusals { IfErr result (λ refused. Does (callbacks_of M.Module M.State.eq) (record core.old { module_ = answers }) (command.Stop reason) (answer.Stop (Err refused.refusal)) (record core.old { module_ = answers })) }
    ensures unchanged { OnErr result (core.new ≡ core.old) }
    ensures returned { IfErr result (λ refused. refused.value ≡ answers) }
{
    let module = core.replace_module(answers);
    match core.stop(reason) {
        Ok(word) => {
            drop(module);
            Ok(word)
        }
        Err(refusal) => {
            let answers = core.replace_module(module);
            Err(Refused::new(refusal, answers))
        }
    }
}
