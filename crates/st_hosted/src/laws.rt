//! Laws of hosted machines, for every callback module: each is shown once, and calling it does nothing.
ghost use Rattle.std.specs.Prelude.{◌≡◌, ◌<◌, ◌^◌, ℕ, false, Some, None, Ok, List};
ghost use Rattle.st_events.specs.declared.event.Event.{Event};
ghost use Rattle.st_events.specs.declared.init.Init.{Init};
ghost use Rattle.st_events.specs.declared.machine_id.MachineId.{MachineId};
ghost use Rattle.st_answers.specs.declared.answer.Answer.{Answer};
ghost use Rattle.st_answers.specs.declared.command.Command.{Command};
ghost use Rattle.st_answers.specs.declared.report.Report.{Report};
ghost use Rattle.st_core.specs.declared.machine_state.MachineState.{MachineState};
ghost use Rattle.st_core.specs.declared.start.Start.TheVariants.{Running};
ghost use Rattle.st_core.specs.Accounting.{IsAccounted};
ghost use Rattle.st_core.specs.Callbacks.{Callbacks};
ghost use Rattle.st_core.specs.Choice.{next_event_of};
ghost use Rattle.st_core.specs.Lawful.{IsLawful};
ghost use Rattle.st_core.specs.MachineState.{Machine};
ghost use Rattle.st_core.specs.Run.{Does, Runs};
ghost use Rattle.st_core.specs.Start.{start_of};
ghost use Rattle.st_hosted.specs.HostedRuns.{HostedRuns};
ghost use Rattle.st_hosted.specs.Shown.{is_turn_or_stop, has_turn_or_stop};

use st_events::Module;

/// The event that `Core::next` shows stays the next one, with its number, kind and content, until a turn or a stop:
/// each other command leaves it (clause `command`), and so does each list of others (clause `run`). So a host may
/// take its time over an answer, while the machine is told other things.
///
/// Ours: docs/TRANSITIONS.md, Next event.
pub fn an_event_that_was_shown_stays_next<M: Module>(_module: &M)
    ensures command { (callbacks : M → Callbacks M.State M.Data M.Content) (before after : Machine M M.State M.Data M.Content) (command : Command M.Content) (answer : Answer M.State M.Content) (event : Event M.Content)
        → is_turn_or_stop command ≡ false → Does callbacks before command answer after
        → next_event_of before.machine ≡ Some event → next_event_of after.machine ≡ Some event }
    ensures run { (callbacks : M → Callbacks M.State M.Data M.Content) (before after : Machine M M.State M.Data M.Content) (commands : List (Command M.Content)) (answers : List (Answer M.State M.Content)) (event : Event M.Content)
        → has_turn_or_stop commands ≡ false → Runs callbacks before commands answers after
        → next_event_of before.machine ≡ Some event → next_event_of after.machine ≡ Some event }
{}

/// Machines of a host are as lawful as others, whatever it answers: after any list of commands behind a start, each
/// done with the answers that were handed in for it, the machine is one that can come about.
///
/// Ours: docs/TRANSITIONS.md, Lawful machines.
pub fn a_hosted_run_is_lawful<M: Module>(_module: &M)
    ensures { (callbacks : M → Callbacks M.State M.Data M.Content) (module_ : M) (id : MachineId) (init : Init M.State M.Data M.Content) (now first : ℕ)
        (core : Machine M M.State M.Data M.Content) (report : Report M.State) (steps : List (M × Command M.Content)) (answers : List (Answer M.State M.Content)) (after : MachineState M.State M.Data M.Content)
        → first < 2 ^ 63 → start_of {A = M.Arg} (callbacks module_) module_ id init now first ≡ Ok (Running core report)
        → HostedRuns callbacks core.machine steps answers after → IsLawful after }
{}

/// No event of a host's machine is lost and none is finished twice, whatever the host answers: after any list of
/// commands behind a start, each done with the answers that were handed in for it, that leaves the machine running,
/// each number that waited at the start or was accepted since stands once among those that wait, or once among those
/// that were finished, and not in both, and no other number stands there.
///
/// Ours: docs/TRANSITIONS.md, Accounting.
pub fn a_hosted_run_is_accounted<M: Module>(_module: &M)
    ensures { (callbacks : M → Callbacks M.State M.Data M.Content) (module_ : M) (id : MachineId) (init : Init M.State M.Data M.Content) (now first : ℕ)
        (core : Machine M M.State M.Data M.Content) (report : Report M.State) (steps : List (M × Command M.Content)) (answers : List (Answer M.State M.Content)) (after : MachineState M.State M.Data M.Content)
        → first < 2 ^ 63 → start_of {A = M.Arg} (callbacks module_) module_ id init now first ≡ Ok (Running core report)
        → HostedRuns callbacks core.machine steps answers after → after.ended ≡ None → IsAccounted core.machine answers after }
{}
