//! What a crate above st_core stands on that writes a machine's commands and answers down: a run is put
//! together from steps, from calls and from other runs, by the clauses of the calls alone.
#![tactic(auto)]

ghost use Rattle.std.specs.Prelude.{◌≡◌, [], ◌∷◌, ◌++◌, IfOk, OnOk};
ghost use Rattle.st_answers.specs.declared.answer.Answer.TheVariants as answer;
ghost use Rattle.st_answers.specs.declared.command.Command.TheVariants as command;
ghost use Rattle.st_core.specs.Callbacks.{callbacks_of};
ghost use Rattle.st_core.specs.Run.{Runs};

use st_core::{Answer, Collected, Command, Core, Module, Refusal, Refused, Tag, Turned};

/// What a machine answers to a command.
pub type AnswerOf<M> = Answer<<M as Module>::State, <M as Module>::Content>;

/// What a machine answers to a list of commands.
pub type AnswersOf<M> = Vec<AnswerOf<M>>;

/// Two steps are a run.
pub fn two_steps<M: Module>(
    core: &mut Core<M>,
    first: Command<M::Content>,
    second: Command<M::Content>,
) -> (AnswerOf<M>, AnswerOf<M>)
    ensures runs { Runs (callbacks_of M.Module M.State.eq) core.old (first ∷ second ∷ []) (result.0 ∷ result.1 ∷ []) core.new }
{
    let one = core.step(first);
    let other = core.step(second);
    (one, other)
}

/// A turn and a collect are a run.
pub fn turn_and_collect<M: Module>(
    core: &mut Core<M>,
    now: u64,
    tag: Tag,
) -> (Result<Turned<M::State>, Refusal>, Collected<M::Content>)
    ensures runs { Runs (callbacks_of M.Module M.State.eq) core.old (command.Turn now ∷ command.Collect tag ∷ []) (answer.Turn result.0 ∷ answer.Collect result.1 ∷ []) core.new }
{
    let turned = core.turn(now);
    let collected = core.collect(tag);
    (turned, collected)
}

/// A run after a run is a run.
pub fn two_runs<M: Module>(
    core: &mut Core<M>,
    first: Vec<Command<M::Content>>,
    second: Vec<Command<M::Content>>,
) -> Result<(AnswersOf<M>, AnswersOf<M>), Refused<Vec<Command<M::Content>>>>
    ensures runs { IfOk result (λ answers. Runs (callbacks_of M.Module M.State.eq) core.old (first.items ++ second.items) (answers.0.items ++ answers.1.items) core.new) }
{
    let one = core.run(first)?;
    let other = core.run(second)?;
    Ok((one, other))
}

/// A step leaves the module as it was.
pub fn step_alone<M: Module>(core: &mut Core<M>, command: Command<M::Content>) -> AnswerOf<M>
    ensures module_stays { core.new.module_ ≡ core.old.module_ }
{
    core.step(command)
}
