//! Laws of machines, for every callback module: each is shown once, and calling it does nothing. All but the
//! first speak of the definitions alone.
ghost use Rattle.std.specs.Prelude.{◌≡◌, ◌↔◌, ℕ, ◌<◌, ◌^◌, true, false, Some, None, Ok, List, length};
ghost use Rattle.st_events.specs.declared.event.Event.{Event};
ghost use Rattle.st_events.specs.declared.init.Init.{Init};
ghost use Rattle.st_events.specs.declared.machine_id.MachineId.{MachineId};
ghost use Rattle.st_events.specs.declared.tag.Tag.{Tag};
ghost use Rattle.st_requests.specs.declared.collected.Collected.TheVariants.{Reply};
ghost use Rattle.st_answers.specs.declared.answer.Answer.{Answer};
ghost use Rattle.st_answers.specs.declared.command.Command.{Command};
ghost use Rattle.st_answers.specs.declared.report.Report.{Report};
ghost use Rattle.st_core.specs.declared.start.Start.TheVariants.{Running};
ghost use Rattle.st_core.specs.Accounting.{IsAccounted, waiting_in};
ghost use Rattle.st_core.specs.Callbacks.{Callbacks, callbacks_of, called_of};
ghost use Rattle.st_core.specs.Choice.{waiting_of};
ghost use Rattle.st_core.specs.Lawful.{IsLawful};
ghost use Rattle.st_core.specs.declared.machine_state.MachineState.{MachineState};
ghost use Rattle.st_core.specs.MachineState.{Machine};
ghost use Rattle.st_core.specs.Replies.{peek_of, collect_of};
ghost use Rattle.st_core.specs.Run.{Runs};
ghost use Rattle.st_core.specs.Start.{start_of};

use crate::Core;
use st_events::Module;

/// Each machine is lawful. What was received stands first, and of it what is postponed; no timer runs
/// twice; each number stands once among what waits and what runs; each request is the machine's own; and
/// once it has ended, nothing waits or runs, and no request is open.
///
/// Ours: docs/TRANSITIONS.md, Lawful machines.
pub fn a_machine_is_lawful<M: Module>(core: &Core<M>)
    ensures { IsLawful core.now.machine }
{
    let _ = &core.alloc;
}

/// A state change is a change of value: after the callbacks of an event the state counts as changed where it is
/// another than before, and nowhere else. So equality of a module's states is equality of values.
///
/// Ours: docs/TRANSITIONS.md, State changes; manual: `state_enter()`, on a state change.
pub fn a_state_change_is_a_change_of_value<M: Module>(_module: &M)
    ensures changed { (module_ : M) (machine : MachineState M.State M.Data M.Content) (event : Event M.Content)
        → (called_of (callbacks_of M.Module M.State.eq module_) machine event).changed ≡ true
        → (called_of (callbacks_of M.Module M.State.eq module_) machine event).state ≡ machine.state → ⊥ }
    ensures unchanged { (module_ : M) (machine : MachineState M.State M.Data M.Content) (event : Event M.Content)
        → (called_of (callbacks_of M.Module M.State.eq module_) machine event).changed ≡ false
        → (called_of (callbacks_of M.Module M.State.eq module_) machine event).state ≡ machine.state }
{}

/// A start gives a machine that is lawful, and so does one with any first number below 2^63.
///
/// Ours: docs/TRANSITIONS.md, Lawful machines.
pub fn a_start_is_lawful<M: Module>(_module: &M)
    ensures { (callbacks : Callbacks M.State M.Data M.Content) (module_ : M) (id : MachineId) (answer : Init M.State M.Data M.Content) (now first : ℕ)
        (core : Machine M M.State M.Data M.Content) (report : Report M.State)
        → first < 2 ^ 63 → start_of {A = M.Arg} callbacks module_ id answer now first ≡ Ok (Running core report) → IsLawful core.machine }
{}

/// Each list of commands leaves a lawful machine lawful.
///
/// Ours: docs/TRANSITIONS.md, Lawful machines.
pub fn a_run_keeps_machines_lawful<M: Module>(_module: &M)
    ensures { (callbacks : M → Callbacks M.State M.Data M.Content) (before after : Machine M M.State M.Data M.Content) (commands : List (Command M.Content)) (answers : List (Answer M.State M.Content))
        → IsLawful before.machine → Runs callbacks before commands answers after → IsLawful after.machine }
{}

/// No event is lost and none is finished twice: after any list of commands that leaves a lawful machine
/// running, each number that waited before or was accepted since stands once among those that wait, or once
/// among those that were finished, and not in both, and no other number stands there.
///
/// Ours: docs/TRANSITIONS.md, Accounting.
pub fn a_run_is_accounted<M: Module>(_module: &M)
    ensures { (callbacks : M → Callbacks M.State M.Data M.Content) (before after : Machine M M.State M.Data M.Content) (commands : List (Command M.Content)) (answers : List (Answer M.State M.Content))
        → IsLawful before.machine → Runs callbacks before commands answers after → after.machine.ended ≡ None → IsAccounted before.machine answers after.machine }
{}

/// `peek` shows the reply that `collect` would hand out, and nothing where it would hand out none.
///
/// Ours: docs/DECISIONS.md, Requests.
pub fn peek_shows_what_collect_hands_out<M: Module>(_module: &M)
    ensures { (machine : MachineState M.State M.Data M.Content) (tag : Tag) (content : M.Content)
        → (peek_of machine tag ≡ Some content) ↔ ((collect_of machine tag).0 ≡ Reply content) }
{}

/// `waiting` counts the events of which the accounting of a run speaks.
///
/// Ours: docs/TRANSITIONS.md, Accounting.
pub fn waiting_counts_what_is_accounted<M: Module>(_module: &M)
    ensures { (machine : MachineState M.State M.Data M.Content) → waiting_of machine ≡ length (waiting_in machine) }
{}
