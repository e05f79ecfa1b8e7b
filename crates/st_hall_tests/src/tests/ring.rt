//! A module whose machines send messages to each other.
ghost use Rattle.std.specs.Prelude.{◌≡◌, ◌==◌, ◌-◌, if◌then◌else◌, false, [], ◌∷◌, IfOk};
ghost use Rattle.std.proofs.Common.{rules};
ghost use Rattle.st_events.specs.declared.action.Action.TheVariants.{Send};
ghost use Rattle.st_events.specs.declared.enter_outcome.EnterOutcome.TheVariants as enter_outcome;
ghost use Rattle.st_events.specs.declared.init.Init.TheVariants as init;
ghost use Rattle.st_events.specs.declared.outcome.Outcome.TheVariants.{KeepStateAndData};

use st_core::{Action, Actions, EnterActions, EnterOutcome, Init, Kind, Module, Outcome, Reason};
use st_hall::MachineId;
use std::alloc::{AllocError, Global};

/// Contents are numbers, the state is 0, and the data is the id of another machine. A number above 0 sends one less to that
/// machine, and 0 does nothing. `terminate` answers 7.
#[derive(Clone, Copy)]
pub struct Ring;

/// What is sent to a machine for a number.
fn sent(alloc: Global, to: MachineId, number: u32) -> Result<Actions<u32>, AllocError>
    ensures { IfOk result (λ actions. actions ≡ (if number == 0 then [] else Send to (number - 1) ∷ [])) }
{
    let mut actions = Actions::new(alloc);
    if number > 0 {
        actions.push(Action::Send(to, number - 1))?;
    }
    Ok(actions)
}

impl Module for Ring {
    type State = u32;

    type Data = MachineId;

    type Content = u32;

    type Arg = MachineId;

    ghost init_is = { λ ring arg. init.Ok 0 arg [] };

    ghost handle_is = { λ ring kind content state held.
        KeepStateAndData (if content == 0 then [] else Send held (content - 1) ∷ []) };

    ghost enters_is = { λ ring. false };

    ghost enter_is = { λ ring old state held. enter_outcome.KeepStateAndData [] };

    ghost terminate_is = { λ ring reason state held. 7 };

    fn init(
        &self,
        alloc: Global,
        arg: &MachineId,
    ) -> Result<Init<u32, MachineId, u32>, AllocError> {
        Ok(Init::Ok(0, *arg, Actions::new(alloc)))
    }

    fn handle(
        &self,
        alloc: Global,
        _kind: Kind,
        content: &u32,
        _state: u32,
        held: &MachineId,
    ) -> Result<Outcome<u32, MachineId, u32>, AllocError> {
        let actions = sent(alloc, *held, *content)?;
        Ok(Outcome::KeepStateAndData(actions))
    }

    fn enters(&self) -> bool {
        false
    }

    fn enter(
        &self,
        alloc: Global,
        _old: u32,
        _state: u32,
        _held: &MachineId,
    ) -> Result<EnterOutcome<MachineId, u32>, AllocError> {
        Ok(EnterOutcome::KeepStateAndData(EnterActions::new(alloc)))
    }

    fn terminate(&self, _reason: Reason, _state: u32, _held: &MachineId) -> u32 {
        7
    }

    fn copy_content(&self, _alloc: Global, content: &u32) -> Result<u32, AllocError> {
        Ok(*content)
    }

    fn copy_data(&self, _alloc: Global, held: &MachineId) -> Result<MachineId, AllocError> {
        Ok(*held)
    }

    ghost lawful = { Prim.search rules };
}
